//! The run of a program on a list of lines.
ghost use Rattle.std.specs.Prelude.{◌≡◌, ◌-◌, IfOk, codes};
ghost use Rattle.inform_meaning.specs.Programs.{no_notes, run_of};
ghost use Rattle.inform_names.specs.Views.{directives_of};
ghost use Rattle.inform_run.specs.Runners.{world_in};
ghost use Rattle.inform_run.specs.Stops.{stop_seen};
ghost use Rattle.adv_demo.specs.Summaries.{global_of, end_of_run, run_summary};

use crate::summaries::{Summary, end_of_run};
use adv_draws::Draws;
use adv_io::{Line, Memory, ScriptConsole};
use inform_meaning::laws::runs_go;
use inform_names::Accepted;
use inform_run::{Runner, Stop};
use std::alloc::Global;

// The value of a global; 0 where there is none.
fn global_of(runner: &Runner<'_>, name: &[u8]) -> i32
    ensures { result ≡ global_of (world_in runner.now) name.now }
{
    runner.global(name).unwrap_or(0)
}

// How a run ended that took so many lines and draws and stopped for this.
fn summary(runner: &Runner<'_>, stop: Stop, lines: usize, draws: u64) -> Summary
    ensures { result ≡ record {
      lines = lines;
      draws = draws;
      end = end_of_run (stop_seen stop) (global_of (world_in runner.now) (codes "over"));
      room = global_of (world_in runner.now) (codes "here");
      light = global_of (world_in runner.now) (codes "light");
    } }
{
    Summary {
        lines,
        draws,
        end: end_of_run(stop, global_of(runner, b"over")),
        room: global_of(runner, b"here"),
        light: global_of(runner, b"light"),
    }
}

/// Runs a program for so many steps at most on these lines and draws, of which none was taken, and
/// answers how it ended and how many steps it used.
pub fn run_lines(
    alloc: Global,
    program: &Accepted,
    lines: &[Line],
    mut draws: Draws,
    steps: u64,
) -> Result<(Summary, u64), Memory>
    requires { draws.taken ≡ 0 }
    ensures ended { IfOk result (λ ran. ran.0 ≡ run_summary (run_of program.now.width
        (directives_of program.now) no_notes steps lines.now draws.left)) }
    ensures used { IfOk result (λ ran. ran.1 ≡ steps - (run_of program.now.width
        (directives_of program.now) no_notes steps lines.now draws.left).1.steps) }
{
    runs_go();
    let mut runner = Runner::open(alloc, program)?;
    let mut console = ScriptConsole::new(lines);
    match runner.run(&mut draws, steps, &mut console) {
        Ok(stop) => {
            let taken = lines.len() - console.left();
            Ok((summary(&runner, stop, taken, draws.taken()), runner.used()))
        }
        Err(_) => unreachable!(),
    }
}
