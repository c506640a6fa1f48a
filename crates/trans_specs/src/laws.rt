//! The laws of views, names and rounds. Each is the contract of a function that does nothing else.
ghost use Rattle.trans_specs.specs.Writes.{GlobalsWritten, EntriesWritten};
ghost use Rattle.trans_specs.specs.Wholes.{MainIsEnough};
ghost use Rattle.trans_specs.specs.Laws.{OneStateAStage, OverShowsNothing, LinesAreNumbered, PlaysAreRounds, ExitsStand, LettersStand, BasesAreBaseEntries, ClassesTell, NoneWideAt32, NumbersAreTheirWords, LinesHaveWords, DataDistinct, OpeningStands};

use inform_logic::laws::{opening_opens, run_stops};
use scott_rules::laws::play_stops;

/// A stage shows one state at most.
pub fn one_state_a_stage()
    ensures { OneStateAStage }
{}

/// What is written to a global that shows no state leaves the state that is shown.
pub fn over_shows_nothing()
    ensures { OverShowsNothing }
{}

/// Where the global of a room, the counter, the light or the mark is written, the state that has it
/// is shown.
pub fn globals_written()
    ensures { GlobalsWritten }
{}

/// Where the entry of a place, a flag or a backup is written, the state that has it is shown.
pub fn entries_written()
    ensures { EntriesWritten }
{}

/// The number of a line is read from the name of its routine.
pub fn lines_are_numbered()
    ensures { LinesAreNumbered }
{}

/// A play is one round, and then the others.
pub fn plays_are_rounds()
    ensures { PlaysAreRounds }
{
    play_stops();
}

/// Where the exits of a room stand in their table.
pub fn exits_stand()
    ensures { ExitsStand }
{}

/// Where the letters of an entry stand in theirs.
pub fn letters_stand()
    ensures { LettersStand }
{}

/// The base that the table has of an entry from 1 on is its base entry in the rules.
pub fn bases_are_base_entries()
    ensures { BasesAreBaseEntries }
{}

/// A word and a noun have one class exactly where the word is typed as the noun is.
pub fn classes_tell()
    ensures { ClassesTell }
{}

/// No number of a database is too wide for words of 32 bits.
pub fn none_wide_at_32()
    ensures { NoneWideAt32 }
{}

/// A number that is a word of a width stands for itself in a program of that width.
pub fn numbers_are_their_words()
    ensures { NumbersAreTheirWords }
{}

/// Where no number of a database is too wide, the numbers of its lines are words.
pub fn lines_have_words()
    ensures { LinesHaveWords }
{}

/// No two of the directives of the globals and arrays have one name.
pub fn data_distinct()
    ensures { DataDistinct }
{}

/// A program that begins with the directives of a database and a state opens with a stage that
/// stands for the state, where no number is too wide.
pub fn opening_stands()
    ensures { OpeningStands }
{
    opening_opens();
}

/// Where `main` meets its specification, the run that notes its lines is the play, and tries
/// the same lines.
pub fn main_is_enough()
    ensures { MainIsEnough }
{
    opening_opens();
    run_stops();
}
