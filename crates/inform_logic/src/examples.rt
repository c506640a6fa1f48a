//! Worked routines, each proved by the rules. Each is the contract of a function that does nothing.
ghost use Rattle.inform_logic.specs.Worked.{CarriedIsCounted, GlobalsAreSwapped, ItemIsMoved, PlaceIsSaid, NumbersAreSaid, FirstClearIsFound, LeapYearsAreKnown, DiceAreAdded, SharesAreGiven, NoShareTraps, LineIsTaken, LineIsAwaited, LineIsNoted};
ghost use Rattle.inform_logic.specs.WorkedRuns.{RunIsOver, RunWaits};

/// Items are counted by a loop over their places.
pub fn carried_is_counted()
    ensures { CarriedIsCounted }
{}

/// Two globals are swapped by a routine that is called with an argument.
pub fn globals_are_swapped()
    ensures { GlobalsAreSwapped }
{}

/// Entries of words and of bytes are set.
pub fn item_is_moved()
    ensures { ItemIsMoved }
{}

/// A `switch` says where a place is.
pub fn place_is_said()
    ensures { PlaceIsSaid }
{}

/// A loop says numbers one after the other.
pub fn numbers_are_said()
    ensures { NumbersAreSaid }
{}

/// A loop is left at the first flag that is 0.
pub fn first_clear_is_found()
    ensures { FirstClearIsFound }
{}

/// Conditions within conditions tell the leap years.
pub fn leap_years_are_known()
    ensures { LeapYearsAreKnown }
{}

/// Dice are added by a loop whose test comes after its body.
pub fn dice_are_added()
    ensures { DiceAreAdded }
{}

/// A quotient is given.
pub fn shares_are_given()
    ensures { SharesAreGiven }
{}

/// Where there is none, the routine traps.
pub fn no_share_traps()
    ensures { NoShareTraps }
{}

/// A line is read, and the run is over.
pub fn line_is_taken()
    ensures { LineIsTaken }
{}

/// Where no line is left, the run waits for one.
pub fn line_is_awaited()
    ensures { LineIsAwaited }
{}

/// A routine that is noted calls one that isn't.
pub fn line_is_noted()
    ensures { LineIsNoted }
{}

/// With a line the whole run takes it and is over, at both widths.
pub fn run_is_over()
    ensures { RunIsOver }
{}

/// Without a line it waits for one.
pub fn run_waits()
    ensures { RunWaits }
{}
