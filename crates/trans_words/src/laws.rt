//! What the word reader does, that it can be written, what it calls, and its numbers for a small
//! game. Each is the contract of a function that does nothing.
ghost use Rattle.trans_words.specs.Laws.{LinesAreHeard, ReaderIsFormed, ReaderCallsItself};
ghost use Rattle.trans_words.specs.Worked.{HillNumbers};

/// The reader finds in a typed line what the rules hear.
pub fn words_meet_spec()
    ensures { LinesAreHeard }
{}

/// Its routines have a text.
pub fn words_formed()
    ensures { ReaderIsFormed }
{}

/// Its routines call no others.
pub fn words_call_themselves()
    ensures { ReaderCallsItself }
{}

/// What the seven letters stand for in the game of the hall and the hill.
pub fn hill_numbers()
    ensures { HillNumbers }
{}
