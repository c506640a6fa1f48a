//! The laws of tokens. Each is the contract of a function that does nothing else.
ghost use Rattle.inform_lexer.specs.Laws.{TokensOrFault, NeverBoth, OneTokenList, OneFault, TextReadsBack, TokensAreWritable};
ghost use Rattle.inform_lexer.specs.Longest.{TokensAreLongest};

/// Bytes have tokens, or a first fault.
pub fn tokens_or_fault()
    ensures { TokensOrFault }
{}

/// Bytes never have both.
pub fn never_both()
    ensures { NeverBoth }
{}

/// Bytes have one list of tokens at most.
pub fn one_token_list()
    ensures { OneTokenList }
{}

/// Bytes have one first fault at most.
pub fn one_fault()
    ensures { OneFault }
{}

/// Each token is as long as possible: of the bytes that it begins, no more are a token of any kind.
#[tactic(auto, using(crate::proofs::LongestTokens::tokens_are_longest))]
pub fn tokens_are_longest()
    ensures { TokensAreLongest }
{}

/// Lexemes that have a text are written as one, whose tokens say just these.
pub fn text_reads_back()
    ensures { TextReadsBack }
{}

/// What tokens say has a text, unless it is a reserved word that is none of the grammar: names are
/// names in lower case, numbers fit, characters are characters, and strings say bytes.
pub fn tokens_are_writable()
    ensures { TokensAreWritable }
{}
