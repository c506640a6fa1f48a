//! `run G`: an Inform program is run on the console.
ghost use Rattle.std.specs.Prelude.{◌≡◌, Ok};
ghost use Rattle.adv_io.specs.Console.{Speaks};
ghost use Rattle.adv_io.specs.History.{says};
ghost use Rattle.inform_names.specs.Views.{directives_of};
ghost use Rattle.inform_run.specs.Stops.{stop_seen};
ghost use Rattle.scott_requests.specs.Request.{run};
ghost use Rattle.scott_requests.specs.Views.{asked_run, source_of};
ghost use Rattle.scott_tool.specs.Refusal.{refusing};
ghost use Rattle.scott_tool.specs.Run.{trap_opening, within, trap_end, steps_spent, routine_name, trap_line, stop_line, stop_status};
ghost use Rattle.scott_tool.specs.Work.{run_task};
ghost use Rattle.scott_tool.specs.Plan.{running_from, work};
ghost use Rattle.scott_tool.specs.Views.{texts_in, number_of};
ghost use Rattle.scott_tool.specs.Obeying.{ObeysAlone};
ghost use Rattle.scott_tool.specs.Draws.{draws_from};

use crate::contents::{draws_from, program};
use crate::loads::Texts;
use crate::refusals::concluded;
use crate::status::Status;
use adv_draws::Draws;
use adv_io::{Console, ConsoleFault, say_all};
use inform_meaning::Trap;
use inform_names::Accepted;
use inform_run::{Runner, Stop};
use inform_tree::Directive;
use scott_requests::{DrawSource, RunRequest};
use std::alloc::Global;
use std::mem::forget;

#[tactic(auto, unfolding(crate::specs::Run::trap_opening))]
fn trap_opening<'a>() -> &'a [u8]
    ensures { result.now ≡ trap_opening }
{
    b"[Trap: "
}

#[tactic(auto, unfolding(crate::specs::Run::within))]
fn within<'a>() -> &'a [u8]
    ensures { result.now ≡ within }
{
    b" in "
}

#[tactic(auto, unfolding(crate::specs::Run::trap_end))]
fn trap_end<'a>() -> &'a [u8]
    ensures { result.now ≡ trap_end }
{
    b"]\n"
}

#[tactic(auto, unfolding(crate::specs::Run::steps_spent))]
fn steps_spent<'a>() -> &'a [u8]
    ensures { result.now ≡ steps_spent }
{
    b"[Steps spent.]\n"
}

// The name of the routine that is this directive.
fn routine_name(accepted: &Accepted, at: usize) -> &[u8]
    ensures { result.now ≡ routine_name (directives_of accepted.now) at }
{
    match accepted.program().directives.get(at) {
        Some(Directive::Routine(routine)) => routine.name.bytes(),
        Some(Directive::Constant(_, _)) => b"",
        Some(Directive::Global(_, _)) => b"",
        Some(Directive::Array(_, _, _)) => b"",
        None => b"",
    }
}

// Says of a trap what it is and where.
fn say_trap<C: Console>(
    accepted: &Accepted,
    trap: Trap,
    at: usize,
    console: &mut C,
) -> Result<(), ConsoleFault>
    ensures { Speaks (C.seen console.old) (C.seen console.new) result
        (says (trap_line (directives_of accepted.now) trap at)) }
{
    let routine = routine_name(accepted, at);
    say_all(
        console,
        &[trap_opening(), trap.word(), within(), routine, trap_end()],
    )
}

/// Says the line of a run that stopped so, if it has one.
pub fn say_stop<C: Console>(
    accepted: &Accepted,
    stop: Stop,
    console: &mut C,
) -> Result<(), ConsoleFault>
    ensures { Speaks (C.seen console.old) (C.seen console.new) result
        (says (stop_line (directives_of accepted.now) (stop_seen stop))) }
{
    match stop {
        Stop::Quit => Ok(()),
        Stop::NeedsLine => Ok(()),
        Stop::NeedsDraw => Ok(()),
        Stop::Trap(trap, at) => say_trap(accepted, trap, at, console),
        Stop::Spent => console.say(steps_spent()),
    }
}

/// The status of a run that stopped so.
pub fn stop_status(stop: Stop) -> Status
    ensures { number_of result ≡ stop_status (stop_seen stop) }
{
    match stop {
        Stop::Quit => Status::Done,
        Stop::NeedsLine => Status::Done,
        Stop::NeedsDraw => Status::Done,
        Stop::Trap(_, _) => Status::Trapped,
        Stop::Spent => Status::StepsSpent,
    }
}

// Runs a program with these draws, for so many steps at most.
fn run_with<C: Console>(
    alloc: Global,
    accepted: &Accepted,
    mut draws: Draws,
    steps: u64,
    console: &mut C,
) -> Status
    ensures { ObeysAlone (C.seen console.old) (C.seen console.new)
        (Ok (run_task accepted.now.width (directives_of accepted.now) steps draws.left))
        (number_of result) }
{
    match Runner::open(alloc, accepted) {
        Ok(mut runner) => match runner.run(&mut draws, steps, console) {
            Ok(stop) => concluded(say_stop(accepted, stop, console), stop_status(stop)),
            Err(_) => Status::ConsoleFailed,
        },
        Err(_) => Status::NoMemory,
    }
}

// Runs a program with the draws of this source, for so many steps at most.
fn run_from<C: Console>(
    alloc: Global,
    accepted: &Accepted,
    source: DrawSource<'_>,
    steps: u64,
    texts: &Texts,
    console: &mut C,
) -> Status
    ensures { ObeysAlone (C.seen console.old) (C.seen console.new)
        (refusing (running_from accepted.now.width (directives_of accepted.now) steps
        (draws_from (source_of source.entry) texts.now.draws.items))) (number_of result) }
{
    match draws_from(alloc, source, &texts.draws) {
        Ok(draws) => run_with(alloc, accepted, draws, steps, console),
        Err(refusal) => refusal.end(console),
    }
}

/// Runs a program.
pub fn run<C: Console>(
    alloc: Global,
    asked: RunRequest<'_>,
    texts: &Texts,
    console: &mut C,
) -> Status
    ensures { ObeysAlone (C.seen console.old) (C.seen console.new)
        (refusing (work (run (asked_run asked.entry)) (texts_in texts.now))) (number_of result) }
{
    let accepted = match program(alloc, asked.program, asked.width, &texts.main) {
        Ok(accepted) => accepted,
        Err(refusal) => return refusal.end(console),
    };
    let status = run_from(alloc, &accepted, asked.source, asked.steps, texts, console);
    // The system takes the program's memory back at once when it ends.
    forget(accepted);
    status
}
