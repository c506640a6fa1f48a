//! The laws of runs that are made in pieces. Each is the contract of a function that does nothing
//! else.
ghost use Rattle.inform_steps.specs.Laws.{PastCountsForNothing, RunsStand, WaitsStay, PiecesJoin, SpentGoesOn, StoppedStays, EnteredJoin, StoppedEntersNothing, OnlyCallsEnter, EnteredFromTheBeginning};

use inform_meaning::laws::{runs_split, stop_stays};
use inform_moves::laws::{moves_fall, moves_mean, moves_need, moves_open, runs_add};

/// What happened before a run makes no difference to it.
pub fn past_counts_for_nothing()
    ensures { PastCountsForNothing }
{
    moves_mean();
    moves_fall();
}

/// A run that waits needs next what it lacks, and none is left of that.
pub fn runs_stand()
    ensures { RunsStand }
{
    moves_mean();
    moves_fall();
    moves_need();
}

/// A run that waits for a line or a draw still waits for it, however many steps it is given.
pub fn waits_stay()
    ensures { WaitsStay }
{
    moves_mean();
    moves_need();
    runs_stand();
}

/// A run of so many steps and some more is the piece of so many steps, and after it the piece with
/// the others that goes on from where the first stopped.
pub fn pieces_join()
    ensures { PiecesJoin }
{
    moves_mean();
    runs_split();
    stop_stays();
    past_counts_for_nothing();
    runs_stand();
}

/// A spent run has used all of its steps, and takes a step of those that it is given.
pub fn spent_goes_on()
    ensures { SpentGoesOn }
{
    moves_mean();
    moves_need();
    runs_add();
    runs_stand();
}

/// A run that stopped for anything but steps does nothing with more of them: they are left over.
pub fn stopped_stays()
    ensures { StoppedStays }
{
    moves_mean();
    runs_split();
    runs_stand();
}

/// What a run enters is what its first piece enters, and then what the next one does.
pub fn entered_join()
    ensures { EnteredJoin }
{
    pieces_join();
}

/// Where a run stopped for anything but steps, more steps enter nothing.
pub fn stopped_enters_nothing()
    ensures { StoppedEntersNothing }
{
    stopped_stays();
}

/// A step that is no call enters nothing.
pub fn only_calls_enter()
    ensures { OnlyCallsEnter }
{
    moves_mean();
    moves_fall();
    moves_need();
    moves_open();
    runs_stand();
    pieces_join();
    stopped_stays();
}

/// What a program enters from its beginning is what its run does that goes on from there.
pub fn entered_from_the_beginning()
    ensures { EnteredFromTheBeginning }
{}
