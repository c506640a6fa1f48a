//! The laws of games from a number. Each is the contract of a function that does nothing.
ghost use Rattle.adv_gen.specs.Laws.{MadeKeepsLimits, PicksAreCounted, StartsAsWorkedOut};

/// The database of a number of 8 to 120 keeps the limits of the format.
pub fn made_keeps_limits()
    ensures { MadeKeepsLimits }
{}

/// The game of a number n from 8 on takes 72n + 59 picks.
pub fn picks_are_counted()
    ensures { PicksAreCounted }
{}

/// The first room of the game of 8, its first item and its first line are as they were worked out.
pub fn starts_as_worked_out()
    ensures { StartsAsWorkedOut }
{}
