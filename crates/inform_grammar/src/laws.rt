//! The laws of the grammar. Each is the contract of a function that does nothing else.
ghost use Rattle.inform_grammar.specs.Laws.{SentenceIsRead, ReadIsSentence, OneProgram, SentenceOrFault, NeverBoth, FaultIsFirst};

use inform_lexemes::laws::{keywords_told, symbols_told};

/// A sentence is read as its program.
#[tactic(auto, using(crate::proofs::ReadSentences::sentence_is_read))]
pub fn sentence_is_read()
    ensures { SentenceIsRead }
{}

/// What is read as a program is a sentence of it.
pub fn read_is_sentence()
    ensures { ReadIsSentence }
{
    symbols_told();
    keywords_told();
}

/// A list of lexemes has one program at most.
#[tactic(auto, using(crate::proofs::ReadSentences::one_program))]
pub fn one_program()
    ensures { OneProgram }
{}

/// Each list of lexemes is a sentence, or it has a fault.
pub fn sentence_or_fault()
    ensures { SentenceOrFault }
{
    symbols_told();
    keywords_told();
}

/// No list of lexemes is both a sentence and faulty.
#[tactic(auto, using(crate::proofs::ReadSentences::never_both))]
pub fn never_both()
    ensures { NeverBoth }
{}

/// The fault that is read is the first one: the lexemes before it are a prefix of a sentence, and
/// with it they are none, or there is no room for it.
pub fn fault_is_first()
    ensures { FaultIsFirst }
{
    symbols_told();
    keywords_told();
}
