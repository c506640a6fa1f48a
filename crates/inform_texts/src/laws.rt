//! The laws of texts. Each is the contract of a function that does nothing else.
ghost use Rattle.inform_texts.specs.Laws.{OneProgramAText, ProgramOrFault, NeverBoth, OneFaultAText, FaultIsFirst, ProgramIn, FaultIn};

use inform_grammar::laws as grammar;
use inform_lexer::laws as tokens;

/// A text has one program at most.
pub fn one_program_a_text()
    ensures { OneProgramAText }
{
    tokens::one_token_list();
    grammar::one_program();
}

/// A text has a program or a first fault.
pub fn program_or_fault()
    ensures { ProgramOrFault }
{
    tokens::tokens_or_fault();
    grammar::sentence_or_fault();
}

/// No text has both.
pub fn never_both()
    ensures { NeverBoth }
{
    tokens::never_both();
    tokens::one_token_list();
    grammar::never_both();
}

/// A text has one first fault at most.
pub fn one_fault_a_text()
    ensures { OneFaultAText }
{
    tokens::never_both();
    tokens::one_token_list();
    tokens::one_fault();
}

/// A fault of the grammar stands where no sentence goes on: the tokens before it are a prefix of a
/// sentence.
pub fn fault_is_first()
    ensures { FaultIsFirst }
{
    grammar::fault_is_first();
}

/// A text is read as a program exactly where it is a text of it.
pub fn program_in()
    ensures { ProgramIn }
{
    grammar::read_is_sentence();
    one_program_a_text();
    never_both();
}

/// A fault is found exactly where it is the first one of the text.
pub fn fault_in()
    ensures { FaultIn }
{
    grammar::read_is_sentence();
    one_fault_a_text();
    never_both();
}
