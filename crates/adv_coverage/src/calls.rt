//! A run that counts how often each directive is entered.
ghost use Rattle.std.specs.Prelude.{◌≡◌, ◌≤◌, ◌<◌, ◌+◌, ◌^◌, ◌↔◌, false, IfOk, IfSome, IsOk, IsFalse};
ghost use Rattle.adv_counts.specs.Counts.{counted};
ghost use Rattle.adv_io.specs.Faults.{HasCause};
ghost use Rattle.inform_entered.specs.Entered.{open_routines};
ghost use Rattle.inform_run.specs.Runners.{program_run, begun_in, resumed, Runs, GoesOn};
ghost use Rattle.adv_coverage.specs.Calls.{entered_by, entered_since};

use adv_counts::count;
use adv_counts::laws::counts_add;
use adv_draws::Draws;
use adv_io::{Console, ConsoleFault};
use inform_meaning::laws::runs_split;
use inform_run::{Runner, Stop};
use inform_steps::laws::{
    entered_join, pieces_join, spent_goes_on, stopped_enters_nothing, stopped_stays,
};

// Counts the innermost routine, where more are open than before.
#[inline(always)]
fn count_entered(runner: &Runner, before: u32, counts: &mut [u64])
    ensures { counts.new ≡ counted (entered_since before runner.now) counts.old }
{
    if before < runner.open_routines() {
        if let Some(at) = runner.routine() {
            count(counts, at);
        }
    }
}

// Goes on for a step, and counts the routine that it enters.
#[inline(always)]
fn count_step<C: Console>(
    runner: &mut Runner,
    draws: &mut Draws,
    counts: &mut [u64],
    console: &mut C,
) -> Result<Stop, ConsoleFault>
    requires whole { runner.old.broken ≡ false }
    requires few { runner.old.used + 1 < 2 ^ 64 }
    ensures runs { IfSome (C.seen console.old).left (λ lines.
        Runs (C.seen console.old) (C.seen console.new) result 1
        (resumed runner.old 1 lines draws.old.left) runner.old runner.new draws.old draws.new) }
    ensures counts { IfOk result (λ stop. counts.new
        ≡ counted (entered_since (open_routines (begun_in runner.old)) runner.new) counts.old) }
    ensures bounded { (C.seen console.new).bound ≤ (C.seen console.old).bound }
    ensures cause { HasCause (C.seen console.old).faults (C.seen console.new).faults result }
    ensures program { program_run runner.new ≡ program_run runner.old }
    ensures breaks { IsOk result ↔ IsFalse runner.new.broken }
    ensures few_used { runner.new.used ≤ runner.old.used + 1 }
{
    let before = runner.open_routines();
    let stop = runner.run(draws, 1, console)?;
    count_entered(runner, before, counts);
    Ok(stop)
}

/// Runs as `Runner::run` does, and counts how often each directive is entered: after a step the
/// innermost routine is counted, where more are open than before it.
///
/// A directive past the end of the counts isn't counted. After a fault nothing is said of the
/// counts.
pub fn count_calls<C: Console>(
    runner: &mut Runner,
    draws: &mut Draws,
    steps: u64,
    counts: &mut [u64],
    console: &mut C,
) -> Result<Stop, ConsoleFault>
    requires whole { runner.old.broken ≡ false }
    requires few { runner.old.used + steps < 2 ^ 64 }
    ensures runs { IfSome (C.seen console.old).left (λ lines.
        Runs (C.seen console.old) (C.seen console.new) result steps
        (resumed runner.old steps lines draws.old.left) runner.old runner.new
        draws.old draws.new) }
    ensures goes_on { IfSome (C.seen console.old).left (λ lines.
        GoesOn runner.old steps lines draws.old.left) }
    ensures counts { IfSome (C.seen console.old).left (λ lines. IfOk result (λ stop.
        counts.new ≡ counted (entered_by runner.old steps lines draws.old.left) counts.old)) }
    ensures bounded { (C.seen console.new).bound ≤ (C.seen console.old).bound }
    ensures cause { HasCause (C.seen console.old).faults (C.seen console.new).faults result }
    ensures program { program_run runner.new ≡ program_run runner.old }
    ensures breaks { IsOk result ↔ IsFalse runner.new.broken }
    ensures few_used { runner.new.used ≤ runner.old.used + steps }
{
    counts_add();
    runs_split();
    pieces_join();
    entered_join();
    spent_goes_on();
    stopped_stays();
    stopped_enters_nothing();
    let end = runner.used() + steps;
    let mut stop = runner.run_to_call(draws, steps, console)?;
    for _ in 0..steps {
        match stop {
            Stop::Spent => {}
            _ => return Ok(stop),
        }
        let left = end - runner.used();
        if left == 0 {
            return Ok(stop);
        }
        let stepped = count_step(runner, draws, counts, console)?;
        match stepped {
            Stop::Spent => {}
            _ => return Ok(stepped),
        }
        stop = runner.run_to_call(draws, left - 1, console)?;
    }
    Ok(stop)
}
