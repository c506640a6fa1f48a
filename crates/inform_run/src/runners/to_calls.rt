//! A run that goes no further than to where a call is due.
ghost use Rattle.std.specs.Prelude.{◌≡◌, ◌≤◌, ◌<◌, ◌+◌, ◌^◌, ◌↔◌, false, IfOk, IfSome, IsOk, IsFalse};
ghost use Rattle.adv_io.specs.Faults.{HasCause};
ghost use Rattle.inform_steps.specs.Standing.{CallIsDue};
ghost use Rattle.inform_run.specs.Runners.{program_run, begun_in, RunsToCall};

use super::Runner;
use crate::stops::Stop;
use adv_draws::Draws;
use adv_io::{Console, ConsoleFault};
use inform_meaning::laws::runs_go;
use inform_steps::laws::only_calls_enter;

impl<'a> Runner<'a> {
    /// Goes on as `run` does, but no further than to where a call is due: so no routine is entered.
    /// It answers `Spent` there too, and a later call goes on there.
    ///
    /// The console's fault alone is a refusal, and breaks the runner.
    pub fn run_to_call<C: Console>(
        &mut self,
        draws: &mut Draws,
        steps: u64,
        console: &mut C,
    ) -> Result<Stop, ConsoleFault>
        requires whole { self.old.broken ≡ false }
        requires few { self.old.used + steps < 2 ^ 64 }
        ensures runs { IfSome (C.seen console.old).left (λ lines. RunsToCall (C.seen console.old)
            (C.seen console.new) result steps lines self.old self.new draws.old draws.new) }
        ensures due { IfOk result (λ stop. stop ≡ Stop.Spent
            → self.new.used < self.old.used + steps → CallIsDue (begun_in self.new)) }
        ensures bounded { (C.seen console.new).bound ≤ (C.seen console.old).bound }
        ensures cause { HasCause (C.seen console.old).faults (C.seen console.new).faults result }
        ensures program { program_run self.new ≡ program_run self.old }
        ensures breaks { IsOk result ↔ IsFalse self.new.broken }
        ensures few_used { self.new.used ≤ self.old.used + steps }
    {
        runs_go();
        only_calls_enter();
        self.machine.interpreter.left = steps;
        self.machine.interpreter.to_call = true;
        match self.machine.run(draws, console) {
            Ok(stop) => {
                self.used += steps - self.machine.interpreter.left;
                Ok(stop)
            }
            Err(fault) => {
                self.broken = true;
                Err(fault)
            }
        }
    }
}
