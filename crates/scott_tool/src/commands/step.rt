//! `step G`: an Inform program is run on the console, and a line is said at each pause.
ghost use Rattle.std.specs.Prelude.{◌≡◌, ◌≤◌, Ok};
ghost use Rattle.inform_names.specs.Views.{directives_of};
ghost use Rattle.inform_stepper.specs.Repeats.{InRange};
ghost use Rattle.scott_requests.specs.Request.{step};
ghost use Rattle.scott_requests.specs.Settings.{AreSteps, PauseFits};
ghost use Rattle.scott_requests.specs.Views.{asked_run, asked_step, pause_of};
ghost use Rattle.scott_requests.specs.declared.settings.TheConstants.{MOST_STEPS};
ghost use Rattle.scott_tool.specs.Draws.{draws_from};
ghost use Rattle.scott_tool.specs.Obeying.{ObeysAlone};
ghost use Rattle.scott_tool.specs.Plan.{stepping_from, stepping_with, work};
ghost use Rattle.scott_tool.specs.Refusal.{refusing};
ghost use Rattle.scott_tool.specs.Views.{texts_in, number_of};
ghost use Rattle.scott_tool.specs.Work.{step_task};

use crate::commands::run::{say_stop, stop_status};
use crate::contents::{draws_from, pausing, program};
use crate::loads::Texts;
use crate::refusals::concluded;
use crate::status::Status;
use adv_draws::Draws;
use adv_io::Console;
use inform_names::Accepted;
use inform_run::Runner;
use inform_stepper::{Pausing, run_with_pauses};
use scott_requests::{RunRequest, StepRequest};
use std::alloc::Global;
use std::mem::forget;

// Runs a program with these draws, for so many steps at most, with a line at each pause.
fn step_with<C: Console>(
    alloc: Global,
    accepted: &Accepted,
    pausing: Pausing,
    mut draws: Draws,
    steps: u64,
    console: &mut C,
) -> Status
    requires range { InRange pausing }
    requires few { steps ≤ MOST_STEPS }
    ensures { ObeysAlone (C.seen console.old) (C.seen console.new)
        (Ok (step_task accepted.now.width (directives_of accepted.now) steps pausing draws.left))
        (number_of result) }
{
    match Runner::open(alloc, accepted) {
        Ok(mut runner) => {
            match run_with_pauses(&mut runner, &mut draws, accepted, pausing, steps, console) {
                Ok(stop) => concluded(say_stop(accepted, stop, console), stop_status(stop)),
                Err(_) => Status::ConsoleFailed,
            }
        }
        Err(_) => Status::NoMemory,
    }
}

// The same with the draws of this source.
fn step_from<C: Console>(
    alloc: Global,
    accepted: &Accepted,
    pausing: Pausing,
    asked: RunRequest<'_>,
    texts: &Texts,
    console: &mut C,
) -> Status
    requires width { accepted.now.width ≡ asked.width }
    requires range { InRange pausing }
    requires few { asked.steps ≤ MOST_STEPS }
    ensures { ObeysAlone (C.seen console.old) (C.seen console.new)
        (refusing (stepping_from (asked_run asked.entry) (directives_of accepted.now) pausing
        (draws_from (asked_run asked.entry).source texts.now.draws.items))) (number_of result) }
{
    match draws_from(alloc, asked.source, &texts.draws) {
        Ok(draws) => step_with(alloc, accepted, pausing, draws, asked.steps, console),
        Err(refusal) => refusal.end(console),
    }
}

// The same at what is asked for, if the program has the routine.
fn step_on<C: Console>(
    alloc: Global,
    accepted: &Accepted,
    asked: StepRequest<'_>,
    texts: &Texts,
    console: &mut C,
) -> Status
    requires width { accepted.now.width ≡ asked.run.width }
    requires pause { PauseFits (pause_of asked.pause) }
    requires few { asked.run.steps ≤ MOST_STEPS }
    ensures { ObeysAlone (C.seen console.old) (C.seen console.new)
        (refusing (stepping_with (asked_step asked.entry) (directives_of accepted.now)
        texts.now.draws.items)) (number_of result) }
{
    match pausing(alloc, asked.run.program, accepted, asked.pause) {
        Ok(pausing) => step_from(alloc, accepted, pausing, asked.run, texts, console),
        Err(refusal) => refusal.end(console),
    }
}

/// Runs a program, and says a line at each pause.
pub fn step<C: Console>(
    alloc: Global,
    asked: StepRequest<'_>,
    texts: &Texts,
    console: &mut C,
) -> Status
    requires steps { AreSteps asked.run.steps }
    requires pause { PauseFits (pause_of asked.pause) }
    ensures { ObeysAlone (C.seen console.old) (C.seen console.new)
        (refusing (work (step (asked_step asked.entry)) (texts_in texts.now)))
        (number_of result) }
{
    let accepted = match program(alloc, asked.run.program, asked.run.width, &texts.main) {
        Ok(accepted) => accepted,
        Err(refusal) => return refusal.end(console),
    };
    let status = step_on(alloc, &accepted, asked, texts, console);
    // The system takes the program's memory back at once when it ends.
    forget(accepted);
    status
}
