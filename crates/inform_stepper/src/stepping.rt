//! The run up to its next pause.
ghost use Rattle.std.specs.Prelude.{◌≡◌, ◌≤◌, ◌<◌, ◌+◌, ◌^◌, ◌↔◌, false, nat_lt, if◌then◌else◌, ◌∷◌, [], IfSome, IsOk, IsFalse};
ghost use Rattle.std.specs.Option.{option_to_list};
ghost use Rattle.adv_io.specs.Faults.{HasCause};
ghost use Rattle.inform_entered.specs.Entered.{open_routines};
ghost use Rattle.inform_run.specs.Runners.{program_run, begun_in, world_in};
ghost use Rattle.inform_stepper.specs.Going.{Goes};

use crate::laws::runs_join;
use crate::pauses::{Paused, Until};
use adv_draws::Draws;
use adv_io::{Console, ConsoleFault};
use inform_meaning::laws::runs_go;
use inform_run::{Runner, Stop};
use inform_steps::laws::{pieces_join, spent_goes_on, stopped_stays};

// The routine that a step entered, before which so many routines were open, and after which so many
// are.
fn entered(runner: &Runner, before: u32, now: u32) -> Option<usize>
    requires { now ≡ open_routines (begun_in runner.now) }
    ensures { option_to_list result
        ≡ (if nat_lt before now then (world_in runner.now).scope.directive ∷ [] else []) }
{
    if before < now { runner.routine() } else { None }
}

// Goes on as `go` says, by one run for each step.
fn go_by_steps<C: Console>(
    runner: &mut Runner,
    draws: &mut Draws,
    until: Until,
    steps: u64,
    console: &mut C,
) -> Result<Paused, ConsoleFault>
    requires whole { runner.old.broken ≡ false }
    requires few { runner.old.used + steps < 2 ^ 64 }
    requires some { 1 ≤ steps }
    ensures goes { IfSome (C.seen console.old).left (λ lines. Goes (C.seen console.old)
        (C.seen console.new) result until steps lines runner.old runner.new draws.old draws.new) }
    ensures bounded { (C.seen console.new).bound ≤ (C.seen console.old).bound }
    ensures cause { HasCause (C.seen console.old).faults (C.seen console.new).faults result }
    ensures program { program_run runner.new ≡ program_run runner.old }
    ensures breaks { IsOk result ↔ IsFalse runner.new.broken }
    ensures few_used { runner.new.used ≤ runner.old.used + steps }
{
    runs_go();
    pieces_join();
    spent_goes_on();
    runs_join();
    let settled = runner.run(draws, 0, console)?;
    match settled {
        Stop::Spent => {}
        _ => return Ok(Paused::Stopped(settled)),
    }
    let mut before = runner.open_routines();
    let mut left = steps;
    while left > 0 {
        let stepped = runner.run(draws, 1, console)?;
        match stepped {
            Stop::Spent => {}
            _ => return Ok(Paused::Stopped(stepped)),
        }
        let now = runner.open_routines();
        let found = entered(runner, before, now);
        match until.met(found, runner.used()) {
            None => {}
            Some(paused) => return Ok(paused),
        }
        before = now;
        left -= 1;
    }
    Ok(Paused::Stopped(Stop::Spent))
}

// How many steps are made of so many, where so many were used before: up to the step with which `n`
// are used in all, or all of them.
fn steps_up_to(n: u64, used: u64, steps: u64) -> u64
    requires { 1 ≤ steps }
    ensures some { 1 ≤ result }
    ensures few { result ≤ steps }
    ensures up_to { used < n → used + result ≤ n }
    ensures reached { result < steps → used + result ≡ n }
{
    if used < n { steps.min(n - used) } else { steps }
}

// Goes on as `go` says until `n` steps are used in all, by one run for all of its steps: nothing is
// looked at between them.
fn go_to_step<C: Console>(
    runner: &mut Runner,
    draws: &mut Draws,
    n: u64,
    steps: u64,
    console: &mut C,
) -> Result<Paused, ConsoleFault>
    requires whole { runner.old.broken ≡ false }
    requires few { runner.old.used + steps < 2 ^ 64 }
    requires some { 1 ≤ steps }
    ensures goes { IfSome (C.seen console.old).left (λ lines. Goes (C.seen console.old)
        (C.seen console.new) result (Until.Step n) steps lines runner.old runner.new draws.old
        draws.new) }
    ensures bounded { (C.seen console.new).bound ≤ (C.seen console.old).bound }
    ensures cause { HasCause (C.seen console.old).faults (C.seen console.new).faults result }
    ensures program { program_run runner.new ≡ program_run runner.old }
    ensures breaks { IsOk result ↔ IsFalse runner.new.broken }
    ensures few_used { runner.new.used ≤ runner.old.used + steps }
{
    runs_go();
    pieces_join();
    spent_goes_on();
    stopped_stays();
    runs_join();
    let ahead = steps_up_to(n, runner.used(), steps);
    let stop = runner.run(draws, ahead, console)?;
    let used = runner.used();
    match stop {
        Stop::Spent if used == n => Ok(Paused::AtStep),
        Stop::Spent => Ok(Paused::Stopped(Stop::Spent)),
        _ => Ok(Paused::Stopped(stop)),
    }
}

/// Goes on from where the runner stands, step by step, for at most so many steps, and answers why
/// the run paused. After each step it looks, in this order, for a stop other than `Spent`, for an
/// entered routine, for the number of used steps, and whether all steps of the call were used.
///
/// A later call goes on from there. The console's fault alone is a refusal, and breaks the runner.
pub fn go<C: Console>(
    runner: &mut Runner,
    draws: &mut Draws,
    until: Until,
    steps: u64,
    console: &mut C,
) -> Result<Paused, ConsoleFault>
    requires whole { runner.old.broken ≡ false }
    requires few { runner.old.used + steps < 2 ^ 64 }
    requires some { 1 ≤ steps }
    ensures goes { IfSome (C.seen console.old).left (λ lines. Goes (C.seen console.old)
        (C.seen console.new) result until steps lines runner.old runner.new draws.old draws.new) }
    ensures bounded { (C.seen console.new).bound ≤ (C.seen console.old).bound }
    ensures cause { HasCause (C.seen console.old).faults (C.seen console.new).faults result }
    ensures program { program_run runner.new ≡ program_run runner.old }
    ensures breaks { IsOk result ↔ IsFalse runner.new.broken }
    ensures few_used { runner.new.used ≤ runner.old.used + steps }
{
    match until {
        Until::Step(n) => go_to_step(runner, draws, n, steps, console),
        _ => go_by_steps(runner, draws, until, steps, console),
    }
}
