//! The laws of pauses and of pieces of a runner's run. Each is the contract of a function that does
//! nothing else.
ghost use Rattle.inform_stepper.specs.Laws.{RunsJoin, StepsAreShown, PausesAreShown, StoppedShowsNoMore};

use inform_steps::laws::{pieces_join, stopped_stays};

/// A run of a runner, and after it a run of what it left, are one run with the steps of both.
pub fn runs_join()
    ensures { RunsJoin }
{
    pieces_join();
}

/// The events of the steps, one after the other, are what is shown of the run.
pub fn steps_are_shown()
    ensures { StepsAreShown }
{
    pieces_join();
}

/// From a step on to the next one with a text, what is shown is what the piece of the run shows,
/// and then the text.
pub fn pauses_are_shown()
    ensures { PausesAreShown }
{
    pieces_join();
}

/// Where a run stopped for anything but steps, more steps show nothing, and no line.
pub fn stopped_shows_no_more()
    ensures { StoppedShowsNoMore }
{
    stopped_stays();
}
