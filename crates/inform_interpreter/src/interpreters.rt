//! An interpreter, and what waits where it stops.
ghost use Rattle.std.specs.Prelude.{◌≡◌, ◌<◌, length, [], IfOk};
ghost use Rattle.inform_worlds.specs.Views.{world_of};
ghost use Rattle.inform_frames.specs.Frames.{IsPlain, frame_of};
ghost use Rattle.inform_frames.specs.Stacks.{stack_of};
ghost use Rattle.inform_frames.specs.declared.signals.Halt.TheVariants as h;
ghost use Rattle.inform_frames.specs.declared.stacks.TheConstants.{ROOM};
ghost use Rattle.inform_interpreter.specs.Interpreters.{program_of};
ghost use Rattle.inform_interpreter.specs.Doing.{Joins, Waits, Says};

use crate::exits::{Exit, Lack, Stopped};
use adv_io::{Console, Memory};
use inform_frames::{CALLS, Frame, Halt, Stack};
use inform_meaning::Trap;
use inform_tree::Width;
use inform_worlds::World;
use std::alloc::Global;

/// The world of a run, what waits where it stopped, and why it stopped; how many steps are left, how
/// many more calls may be open, and whether it goes no further than to where a call is due.
#[derive(Drop)]
pub struct Interpreter<'a> {
    pub world: World<'a>,
    pub waiting: Stack<'a>,
    pub stopped: Stopped,
    pub left: u64,
    pub room: usize,
    pub to_call: bool,
}

impl<'a> Interpreter<'a> {
    /// An interpreter in which nothing waits. It has all the memory that it ever takes.
    pub fn open(alloc: Global, world: World<'a>) -> Result<Interpreter<'a>, Memory>
        ensures world { IfOk result (λ interpreter. interpreter.world ≡ world.entry) }
        ensures idle { IfOk result (λ interpreter. stack_of interpreter.waiting ≡ []) }
    {
        let waiting = Stack::with_room(alloc)?;
        Ok(Interpreter {
            world,
            waiting,
            stopped: Stopped::Lacks(Lack::Steps),
            left: 0,
            room: CALLS,
            to_call: false,
        })
    }

    /// The width of the program's words.
    pub fn width(&self) -> Width
        ensures { result ≡ (program_of self.now).width }
    {
        self.world.names().accepted().width()
    }

    /// The run is over by a trap, in the routine that runs.
    pub fn trap(&mut self, kind: Trap) -> Exit
        ensures exit { result ≡ Exit.Stops }
        ensures trapped { self.new ≡ record self.old {
          stopped = Stopped.Over (h.Trapped kind (world_of self.old.world).scope.directive);
        } }
    {
        let directive = self.world.scope().directive;
        self.stopped = Stopped::Over(Halt::Trapped(kind, directive));
        Exit::Stops
    }

    /// A part stops for what it lacks, and this frame waits.
    pub fn wait(&mut self, lack: Lack, frame: Frame<'a>) -> Exit
        requires idle { stack_of self.old.waiting ≡ [] }
        requires plain { IsPlain frame }
        ensures exit { result ≡ Exit.Stops }
        ensures waits { Waits lack (frame_of frame.entry) self.old self.new }
    {
        self.stopped = Stopped::Lacks(lack);
        self.waiting.push(frame);
        Exit::Stops
    }

    /// A part was left, in this frame: where it waits, the frame waits too.
    pub fn leave(&mut self, exit: Exit, frame: Frame<'a>) -> Exit
        requires room { length (stack_of self.old.waiting) < ROOM }
        requires plain { IsPlain frame }
        ensures exit { result ≡ exit }
        ensures joins { Joins exit (frame_of frame.entry) self.old self.new }
    {
        match exit {
            Exit::Stops => match self.stopped {
                Stopped::Lacks(_) => self.waiting.push(frame),
                Stopped::Over(_) => {}
                Stopped::Fails(_) => {}
            },
            Exit::Returns(_) => {}
            Exit::Breaks => {}
            Exit::Continues => {}
        }
        exit
    }

    /// Bytes are said.
    pub fn say<C: Console>(&mut self, bytes: &[u8], console: &mut C) -> Result<(), Exit>
        ensures { Says bytes.now self.old self.new (C.seen console.old) (C.seen console.new)
            result }
    {
        match console.say(bytes) {
            Ok(()) => Ok(()),
            Err(fault) => {
                self.stopped = Stopped::Fails(fault);
                Err(Exit::Stops)
            }
        }
    }
}
