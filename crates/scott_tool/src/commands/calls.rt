//! `calls G`: an Inform program is run on the console, and then it is said which of a game's lines
//! it entered.
ghost use Rattle.std.specs.Prelude.{◌≡◌, Ok, IfOk, length, replicate};
ghost use Rattle.inform_names.specs.Views.{directives_of};
ghost use Rattle.inform_run.specs.Stops.{stop_seen};
ghost use Rattle.scott_requests.specs.Request.{calls};
ghost use Rattle.scott_requests.specs.Views.{asked_run, source_of};
ghost use Rattle.scott_tool.specs.Calls.{called_text, calls_end};
ghost use Rattle.scott_tool.specs.Draws.{draws_from};
ghost use Rattle.scott_tool.specs.Obeying.{ObeysAlone, SaysReport};
ghost use Rattle.scott_tool.specs.Plan.{calling_from, work};
ghost use Rattle.scott_tool.specs.Refusal.{refusing};
ghost use Rattle.scott_tool.specs.Run.{stop_status};
ghost use Rattle.scott_tool.specs.Views.{texts_in, number_of};
ghost use Rattle.scott_tool.specs.Work.{calls_task};

use crate::commands::run::say_stop;
use crate::contents::{draws_from, program};
use crate::loads::Texts;
use crate::refusals::concluded;
use crate::status::Status;
use adv_coverage::laws::entered_from_opening;
use adv_coverage::{count_calls, line_counts, report};
use adv_draws::Draws;
use adv_io::{Console, Memory};
use inform_names::Accepted;
use inform_run::{Runner, Stop};
use scott_requests::{DrawSource, RunRequest};
use std::alloc::Global;
use std::mem::forget;

// A count for each of so many directives, each of them 0.
fn no_counts(alloc: Global, directives: usize) -> Result<Vec<u64>, Memory>
    ensures { IfOk result (λ counts. counts.items ≡ replicate directives 0) }
{
    let counts = vec![in alloc; 0; directives]?;
    Ok(counts)
}

// The report on the routines of lines, by the counts of all directives.
fn report_on(alloc: Global, accepted: &Accepted, counts: &[u64]) -> Result<Vec<u8>, Memory>
    ensures { IfOk result (λ text. text.items
        ≡ called_text accepted.now.width (directives_of accepted.now) counts.now) }
{
    let lines = line_counts(alloc, accepted, counts)?;
    report(alloc, &lines)
}

// Says the report.
fn say_report<C: Console>(
    alloc: Global,
    accepted: &Accepted,
    counts: &[u64],
    console: &mut C,
) -> Status
    ensures { SaysReport (C.seen console.old) (C.seen console.new)
        (called_text accepted.now.width (directives_of accepted.now) counts.now) 0
        (number_of result) }
{
    match report_on(alloc, accepted, counts) {
        Ok(text) => concluded(console.say(&text), Status::Done),
        Err(_) => Status::NoMemory,
    }
}

// Says what follows a run that stopped so: the report, or its line.
fn say_end<C: Console>(
    alloc: Global,
    accepted: &Accepted,
    stop: Stop,
    counts: &[u64],
    console: &mut C,
) -> Status
    ensures { SaysReport (C.seen console.old) (C.seen console.new)
        (calls_end accepted.now.width (directives_of accepted.now) (stop_seen stop) counts.now)
        (stop_status (stop_seen stop)) (number_of result) }
{
    match stop {
        Stop::Quit => say_report(alloc, accepted, counts, console),
        Stop::NeedsLine => say_report(alloc, accepted, counts, console),
        Stop::NeedsDraw => say_report(alloc, accepted, counts, console),
        Stop::Trap(_, _) => concluded(say_stop(accepted, stop, console), Status::Trapped),
        Stop::Spent => concluded(say_stop(accepted, stop, console), Status::StepsSpent),
    }
}

// Runs a program with these draws, for so many steps at most, counts what it enters, and says it.
fn count_with<C: Console>(
    alloc: Global,
    accepted: &Accepted,
    mut draws: Draws,
    steps: u64,
    counts: &mut [u64],
    console: &mut C,
) -> Status
    requires { counts.old ≡ replicate (length (directives_of accepted.now)) 0 }
    ensures { ObeysAlone (C.seen console.old) (C.seen console.new)
        (Ok (calls_task accepted.now.width (directives_of accepted.now) steps draws.left))
        (number_of result) }
{
    entered_from_opening();
    match Runner::open(alloc, accepted) {
        Ok(mut runner) => match count_calls(&mut runner, &mut draws, steps, counts, console) {
            Ok(stop) => say_end(alloc, accepted, stop, counts, console),
            Err(_) => Status::ConsoleFailed,
        },
        Err(_) => Status::NoMemory,
    }
}

// The same with counts that are made for it.
fn call_with<C: Console>(
    alloc: Global,
    accepted: &Accepted,
    draws: Draws,
    steps: u64,
    console: &mut C,
) -> Status
    ensures { ObeysAlone (C.seen console.old) (C.seen console.new)
        (Ok (calls_task accepted.now.width (directives_of accepted.now) steps draws.left))
        (number_of result) }
{
    let directives = accepted.program().directives.as_slice();
    match no_counts(alloc, directives.len()) {
        Ok(mut counts) => count_with(alloc, accepted, draws, steps, &mut counts, console),
        Err(_) => Status::NoMemory,
    }
}

// The same with the draws of this source.
fn call_from<C: Console>(
    alloc: Global,
    accepted: &Accepted,
    source: DrawSource<'_>,
    steps: u64,
    texts: &Texts,
    console: &mut C,
) -> Status
    ensures { ObeysAlone (C.seen console.old) (C.seen console.new)
        (refusing (calling_from accepted.now.width (directives_of accepted.now) steps
        (draws_from (source_of source.entry) texts.now.draws.items))) (number_of result) }
{
    match draws_from(alloc, source, &texts.draws) {
        Ok(draws) => call_with(alloc, accepted, draws, steps, console),
        Err(refusal) => refusal.end(console),
    }
}

/// Runs a program, and says which of a game's lines it entered.
pub fn calls<C: Console>(
    alloc: Global,
    asked: RunRequest<'_>,
    texts: &Texts,
    console: &mut C,
) -> Status
    ensures { ObeysAlone (C.seen console.old) (C.seen console.new)
        (refusing (work (calls (asked_run asked.entry)) (texts_in texts.now)))
        (number_of result) }
{
    let accepted = match program(alloc, asked.program, asked.width, &texts.main) {
        Ok(accepted) => accepted,
        Err(refusal) => return refusal.end(console),
    };
    let status = call_from(alloc, &accepted, asked.source, asked.steps, texts, console);
    // The system takes the program's memory back at once when it ends.
    forget(accepted);
    status
}
