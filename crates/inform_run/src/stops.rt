//! Why a run stopped.
ghost use Rattle.std.specs.Prelude.{◌≡◌};
ghost use Rattle.inform_meaning.specs.Runs as m;
ghost use Rattle.inform_frames.specs.Frames.{halt_of};
ghost use Rattle.inform_interpreter.specs.Interpreters.{lack_of};
ghost use Rattle.inform_run.specs.Stops.{stop_seen};

use inform_frames::Halt;
use inform_interpreter::Lack;
use inform_meaning::Trap;

/// Why a run stopped.
#[derive(Clone, Copy, Debug, PartialEq, Eq)]
pub enum Stop {
    Quit,
    /// A line is wanted, and none is left.
    NeedsLine,
    /// A draw is wanted, and none is left.
    NeedsDraw,
    /// The program was about to do what it can't do, in the routine that is the directive of this
    /// number.
    Trap(Trap, usize),
    /// A further step is due, and all were used.
    Spent,
}

/// Why a run stopped that is over like this.
pub fn stop_over(halt: Halt) -> Stop
    ensures { stop_seen result ≡ m.Halted (halt_of halt) }
{
    match halt {
        Halt::Quits => Stop::Quit,
        Halt::Trapped(kind, directive) => Stop::Trap(kind, directive),
    }
}

/// Why a run stopped that lacks this.
pub fn stop_for(lack: Lack) -> Stop
    ensures { stop_seen result ≡ m.Lacking (lack_of lack) }
{
    match lack {
        Lack::Line => Stop::NeedsLine,
        Lack::Draw => Stop::NeedsDraw,
        Lack::Steps => Stop::Spent,
    }
}
