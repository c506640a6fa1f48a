//! The run that says a line at each pause.
ghost use Rattle.std.specs.Prelude.{◌≡◌, ◌≤◌, ◌<◌, ◌+◌, ◌^◌, false, IfSome, OnOk};
ghost use Rattle.adv_io.specs.Faults.{HasCause};
ghost use Rattle.inform_run.specs.Runners.{program_run, resumed};
ghost use Rattle.inform_stepper.specs.Repeats.{InRange, shown_with_pauses, RunsShowing};

use crate::laws::{pauses_are_shown, runs_join, stopped_shows_no_more};
use crate::lines::say_pause;
use crate::pauses::Paused;
use crate::repeats::Pausing;
use crate::stepping::go;
use adv_draws::Draws;
use adv_io::{Console, ConsoleFault};
use inform_names::Accepted;
use inform_run::{Runner, Stop};
use inform_steps::laws::{pieces_join, spent_goes_on, stopped_stays};

/// Goes on from where the runner stands, for at most so many steps, and answers why it stopped. At
/// each pause it says a line: `[step U:` with the number of used steps, for each global of the
/// program in order a blank, its name, `=` and its value, and `]` and a newline.
///
/// Without those lines it is the run that `Runner::run` makes. The console's fault alone is a
/// refusal; after it nothing is said of how far the runner got.
pub fn run_with_pauses<C: Console>(
    runner: &mut Runner,
    draws: &mut Draws,
    program: &Accepted,
    pausing: Pausing,
    steps: u64,
    console: &mut C,
) -> Result<Stop, ConsoleFault>
    requires whole { runner.old.broken ≡ false }
    requires few { runner.old.used + steps < 2 ^ 63 }
    requires range { InRange pausing }
    ensures runs { IfSome (C.seen console.old).left (λ lines.
        RunsShowing (C.seen console.old) (C.seen console.new) result
        (shown_with_pauses program.now pausing runner.old steps lines draws.old.left) steps
        (resumed runner.old steps lines draws.old.left) runner.old runner.new
        draws.old draws.new) }
    ensures bounded { (C.seen console.new).bound ≤ (C.seen console.old).bound }
    ensures cause { HasCause (C.seen console.old).faults (C.seen console.new).faults result }
    ensures program { program_run runner.new ≡ program_run runner.old }
    ensures stays_whole { OnOk result (runner.new.broken ≡ false) }
    ensures few_used { runner.new.used ≤ runner.old.used + steps }
{
    pieces_join();
    spent_goes_on();
    stopped_stays();
    runs_join();
    pauses_are_shown();
    stopped_shows_no_more();
    let end = runner.used() + steps;
    let settled = runner.run(draws, 0, console)?;
    match settled {
        Stop::Spent => {}
        _ => return Ok(settled),
    }
    for _ in 0..steps {
        let used = runner.used();
        if used == end {
            return Ok(Stop::Spent);
        }
        let paused = go(runner, draws, pausing.after(used), end - used, console)?;
        if let Paused::Stopped(stop) = paused {
            return Ok(stop);
        }
        say_pause(runner, program, console)?;
    }
    Ok(Stop::Spent)
}
