//! A runner: a program that runs, from its beginning, and on from where it stopped.
ghost use Rattle.std.specs.Prelude.{◌≡◌, ◌≤◌, ◌<◌, ◌+◌, ◌^◌, ◌↔◌, true, false, IfOk, IfSome, OnOk, IsOk, IsFalse, IfNone};
ghost use Rattle.adv_io.specs.Faults.{HasCause};
ghost use Rattle.inform_run.specs.Machines.{IsFitUnless};
ghost use Rattle.inform_run.specs.Fitness.{IsFitUnless-prop};

mod to_calls;

use crate::machines::Machine;
use crate::stops::Stop;
use adv_draws::Draws;
use adv_io::{Console, ConsoleFault, Memory};
use inform_frames::{Begin, Frame, Stack};
use inform_interpreter::Interpreter;
use inform_meaning::laws::{runs_go, runs_split};
use inform_names::Accepted;
use inform_names::laws::routines_are_shallow;
use inform_worlds::World;
use std::alloc::Global;

/// A program that runs.
///
/// A clause sees what has begun and isn't finished, the world, the steps that were used, and
/// whether a failure of the console broke the runner.
#[derive(Drop)]
pub struct Runner<'a> {
    machine: Machine<'a>,
    used: u64,
    broken: bool,
    pub ghost fit: { IsFitUnless broken machine } by { IsFitUnless-prop broken machine },
}

impl<'a> Runner<'a> {
    ghost use Rattle.std.specs.Prelude.{slice_get};
    ghost use Rattle.inform_names.specs.Acceptance.{main};
    ghost use Rattle.inform_names.specs.Views.{directives_of};
    ghost use Rattle.inform_meaning.specs.Programs.{routine_named, body_of, opening_world};
    ghost use Rattle.inform_meaning.specs.Runs.{main_begun};
    ghost use Rattle.inform_meaning.specs.Worlds.{entries_of};
    ghost use Rattle.inform_worlds.specs.Worlds.{program_of};
    ghost use Rattle.inform_entered.specs.Entered.{open_routines};
    ghost use Rattle.inform_run.specs.Runners.{program_run, begun_in, world_in, resumed, Runs, GoesOn};

    /// A program at its beginning, in `main`. Once it is open it takes no memory.
    pub fn open(alloc: Global, program: &'a Accepted) -> Result<Runner<'a>, Memory>
        ensures program { IfOk result (λ runner. program_run runner ≡ program_of program.now) }
        ensures begun { IfOk result (λ runner. begun_in runner ≡ main_begun (body_of
            (routine_named program.now.width (directives_of program.now) main))) }
        ensures world { IfOk result (λ runner. world_in runner ≡ opening_world program.now.width
            (directives_of program.now)
            (routine_named program.now.width (directives_of program.now) main)) }
        ensures used { IfOk result (λ runner. runner.used ≡ 0) }
        ensures whole { IfOk result (λ runner. runner.broken ≡ false) }
    {
        routines_are_shallow();
        let world = World::open(alloc, program)?;
        let (_, main) = world.names().main();
        let mut stack = Stack::with_room(alloc)?;
        stack.push(Frame::Main);
        stack.push(Frame::Begins(Begin::Blocks(&main.body)));
        let interpreter = Interpreter::open(alloc, world)?;
        Ok(Runner {
            machine: Machine { interpreter, stack },
            used: 0,
            broken: false,
        })
    }

    /// Goes on from where the runner stands, for at most so many steps, and answers why it stopped.
    /// After `NeedsLine`, `NeedsDraw` and `Spent` a later call goes on there; after `Quit` and
    /// `Trap` it answers the same again, and nothing happens.
    ///
    /// The console's fault alone is a refusal, and breaks the runner: it can't go on.
    pub fn run<C: Console>(
        &mut self,
        draws: &mut Draws,
        steps: u64,
        console: &mut C,
    ) -> Result<Stop, ConsoleFault>
        requires whole { self.old.broken ≡ false }
        requires few { self.old.used + steps < 2 ^ 64 }
        ensures runs { IfSome (C.seen console.old).left (λ lines.
            Runs (C.seen console.old) (C.seen console.new) result steps
            (resumed self.old steps lines draws.old.left) self.old self.new draws.old draws.new) }
        ensures goes_on { IfSome (C.seen console.old).left (λ lines.
            GoesOn self.old steps lines draws.old.left) }
        ensures bounded { (C.seen console.new).bound ≤ (C.seen console.old).bound }
        ensures cause { HasCause (C.seen console.old).faults (C.seen console.new).faults result }
        ensures program { program_run self.new ≡ program_run self.old }
        ensures breaks { IsOk result ↔ IsFalse self.new.broken }
        ensures few_used { self.new.used ≤ self.old.used + steps }
    {
        runs_go();
        runs_split();
        self.machine.interpreter.left = steps;
        self.machine.interpreter.to_call = false;
        match self.machine.run(draws, console) {
            Ok(stop) => {
                self.used += steps - self.machine.interpreter.left;
                Ok(stop)
            }
            Err(fault) => {
                self.broken = true;
                Err(fault)
            }
        }
    }

    /// The value of the global of this name, if there is one.
    pub fn global(&self, name: &[u8]) -> Option<i32>
        ensures { result ≡ (world_in self.now).globals name.now }
    {
        self.machine.interpreter.world.global(name)
    }

    /// An entry of the array of this name, if there are such an array and such an entry.
    pub fn entry(&self, name: &[u8], index: u32) -> Option<i32>
        ensures { result ≡ slice_get (entries_of name.now (world_in self.now)) index }
    {
        self.machine.interpreter.world.entry_at(name, index)
    }

    /// The number of the directive that is the innermost open routine; `None` exactly where the run
    /// is over, after `Quit` and `Trap`.
    pub fn routine(&self) -> Option<usize>
        ensures over { IfNone result (open_routines (begun_in self.now) ≡ 0) }
        ensures innermost { IfSome result (λ at. at ≡ (world_in self.now).scope.directive) }
        ensures begun { IfSome result (λ at. 0 < open_routines (begun_in self.now)) }
    {
        match self.machine.stack.top() {
            None => None,
            Some(Frame::Over(_)) => None,
            Some(_) => Some(self.machine.interpreter.world.scope().directive),
        }
    }

    /// How many routines are open: `main` and each call; none where the run is over, after `Quit`
    /// and `Trap`.
    pub fn open_routines(&self) -> u32
        ensures { result ≡ open_routines (begun_in self.now) }
    {
        match self.routine() {
            None => 0,
            Some(_) => self.machine.stack.calls() as u32 + 1,
        }
    }

    /// How many steps were used.
    pub fn used(&self) -> u64
        ensures { result ≡ self.now.used }
    {
        self.used
    }

    /// Whether a failure of the console broke the runner.
    pub fn broken(&self) -> bool
        ensures { result ≡ self.now.broken }
    {
        self.broken
    }
}
