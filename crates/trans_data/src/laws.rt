//! The laws of the routines. Each is the contract of a function that does nothing else.
ghost use Rattle.trans_data.specs.Laws.{PartsAreServed, HelpersMeetSpecs, DataMeetsSpecs, TextsFormed, DataFormed};

/// A program that has some directives and then others has each of the two.
pub fn parts_are_served()
    ensures { PartsAreServed }
{}

/// The routines of items and places meet their specifications.
pub fn helpers_meet_specs()
    ensures { HelpersMeetSpecs }
{}

/// The routines of texts and of the light meet their specifications.
pub fn data_meets_specs()
    ensures { DataMeetsSpecs }
{}

/// The routines have a text, for a database that keeps its limits.
pub fn texts_formed()
    ensures { TextsFormed }
{}

/// The globals and arrays have a text, for a state that fits such a database.
pub fn data_formed()
    ensures { DataFormed }
{}
