//! Worked examples of texts, judged by hand. Each is the contract of a function that does nothing,
//! and is proved by computing.
ghost use Rattle.inform_lexer.specs.Worked.{LongestSymbolsFirst, CommentsPassed, StringsSaid, EscapesWritten, FaultsPlaced, NumbersLimited};

/// Of the symbols that the bytes begin with, the longest one is meant.
pub fn longest_symbols_first()
    ensures { LongestSymbolsFirst }
{}

/// A comment goes up to a break, and holds whatever it likes.
pub fn comments_passed()
    ensures { CommentsPassed }
{}

/// Blanks with a break in them are one space, and nothing after a caret.
pub fn strings_said()
    ensures { StringsSaid }
{}

/// A digit after an escape is escaped too.
pub fn escapes_written()
    ensures { EscapesWritten }
{}

/// The first fault is the one in the order of the text.
pub fn faults_placed()
    ensures { FaultsPlaced }
{}

/// The greatest number fits in each base.
pub fn numbers_limited()
    ensures { NumbersLimited }
{}
