//! The laws of programs and whole runs. Each is the contract of a function that does nothing else.
ghost use Rattle.inform_logic.specs.Laws.{ProgramHolds, OpeningOpens, RunStops, NotesCountForNothing};

use inform_names::laws::meanings_are_first;

/// A program of directives holds them, where no two have one name.
pub fn program_holds()
    ensures { ProgramHolds }
{
    meanings_are_first();
}

/// It opens with the values of its globals and the entries of its arrays.
pub fn opening_opens()
    ensures { OpeningOpens }
{
    meanings_are_first();
}

/// What stops the body of `Main` stops the run, with all steps that are enough.
pub fn run_stops()
    ensures { RunStops }
{}

/// What a program notes changes nothing else of its runs.
pub fn notes_count_for_nothing()
    ensures { NotesCountForNothing }
{}
