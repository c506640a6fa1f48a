//! A machine: what has begun and isn't finished, and the interpreter of its parts.
ghost use Rattle.std.specs.Prelude.{◌≡◌, ◌∷◌, ◌-◌, []};
ghost use Rattle.inform_meaning.specs.Runs.{CALL_LIMIT};
ghost use Rattle.inform_moves.specs.Heights.{height, Fits, calls_open};
ghost use Rattle.inform_moves.specs.Readiness.{HasRoom};
ghost use Rattle.inform_worlds.specs.Views.{world_of};
ghost use Rattle.inform_frames.specs.Frames.{signal_of};
ghost use Rattle.inform_frames.specs.Stacks.{stack_of, top_seen, IsPlainTop};
ghost use Rattle.inform_interpreter.specs.Interpreters.{handed_on};
ghost use Rattle.inform_interpreter.specs.Doing.{handed, Does};
ghost use Rattle.inform_run.specs.Machines.{with_room, IsFit, Runs};

use crate::stops::{Stop, stop_for, stop_over};
use adv_draws::Draws;
use adv_io::{Console, ConsoleFault, Line};
use inform_frames::{CALLS, Frame, Signal, Stack, Top};
use inform_interpreter::{Interpreter, Stopped, halt_of};
use inform_moves::laws::{frames_are_few, room_is_left, runs_add};

/// What has begun and isn't finished, and the interpreter of its parts.
#[derive(Drop)]
pub struct Machine<'a> {
    pub interpreter: Interpreter<'a>,
    pub stack: Stack<'a>,
}

impl<'a> Machine<'a> {
    // What the innermost frame, which was taken off, does with an outcome.
    fn hand<C: Console>(
        &mut self,
        top: Top<'a>,
        signal: Signal,
        draws: &mut Draws,
        line: &mut Line,
        console: &mut C,
    ) -> Option<Signal>
        requires idle { stack_of self.old.interpreter.waiting ≡ [] }
        requires plain { IsPlainTop top }
        requires fits { Fits (top_seen top ∷ stack_of self.old.stack) }
        requires room { HasRoom (world_of self.old.interpreter.world) (top_seen top) }
        ensures stack { stack_of self.new.stack ≡ stack_of self.old.stack }
        ensures does { Does (height (top_seen top.entry)) (handed (top_seen top.entry)
            (signal_of signal)) (with_room (CALL_LIMIT - calls_open (stack_of self.old.stack))
            self.old.interpreter) self.new.interpreter (C.seen console.old)
            (C.seen console.new) draws.old draws.new (handed_on self.new.interpreter result) }
    {
        self.interpreter.room = CALLS - self.stack.calls();
        match top {
            Top::Caller(scope) => Some(self.interpreter.back(scope, signal)),
            Top::Plain(frame) => self.interpreter.hand(frame, signal, draws, line, console),
        }
    }

    /// Goes on with the steps that the interpreter has left, until the run stops.
    pub fn run<C: Console>(
        &mut self,
        draws: &mut Draws,
        console: &mut C,
    ) -> Result<Stop, ConsoleFault>
        requires { IsFit self.old }
        ensures { Runs self.old self.new (C.seen console.old) (C.seen console.new) draws.old
            draws.new result }
    {
        runs_add();
        room_is_left();
        frames_are_few();
        let mut line = Line::of(&[]);
        let mut signal = Signal::Normal;
        'running: loop {
            let Some(top) = self.stack.take() else {
                let halt = halt_of(signal);
                self.stack.push(Frame::Over(halt));
                return Ok(stop_over(halt));
            };
            signal = match self.hand(top, signal, draws, &mut line, console) {
                Some(handed) => handed,
                None => match self.interpreter.stopped {
                    Stopped::Over(halt) => Signal::Halts(halt),
                    Stopped::Lacks(lack) => {
                        self.interpreter.waiting.move_onto(&mut self.stack);
                        return Ok(stop_for(lack));
                    }
                    Stopped::Fails(fault) => return Err(fault),
                },
            };
        }
    }
}
