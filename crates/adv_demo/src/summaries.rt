//! How a play or a run ended.
ghost use Rattle.std.specs.Prelude.{◌≡◌};
ghost use Rattle.inform_run.specs.Stops.{stop_seen};
ghost use Rattle.adv_demo.specs.Summaries.{end_of_play, end_of_run};

use inform_run::Stop;
use scott_types::Ending;

/// Why a play or a run stopped.
#[derive(Clone, Copy, Debug, PartialEq, Eq)]
pub enum End {
    /// The game is over: 1 by an opcode, 2 by a fall in the dark, 3 by a full score.
    Over(i32),
    /// A line is wanted, and none is left.
    NeedsLine,
    /// A draw is wanted, and none is left.
    NeedsDraw,
    /// The run was about to do what it can't do.
    Trapped,
    /// The run has used all its steps.
    Spent,
}

/// How a play or a run ended: how many lines and draws it took, why it stopped, and the room and
/// the light at its end.
#[derive(Clone, Copy, Debug, PartialEq, Eq)]
pub struct Summary {
    pub lines: usize,
    pub draws: u64,
    pub end: End,
    pub room: i32,
    pub light: i32,
}

/// The end of a play.
pub fn end_of_play(ending: Ending) -> End
    ensures { result ≡ end_of_play ending }
{
    match ending {
        Ending::Over(number) => End::Over(i32::from(number)),
        Ending::NeedsLine => End::NeedsLine,
        Ending::NeedsDraw => End::NeedsDraw,
    }
}

/// The end of a run that stopped so, with this number in the global `over`.
pub fn end_of_run(stop: Stop, over: i32) -> End
    ensures { result ≡ end_of_run (stop_seen stop) over }
{
    match stop {
        Stop::Quit => End::Over(over),
        Stop::NeedsLine => End::NeedsLine,
        Stop::NeedsDraw => End::NeedsDraw,
        Stop::Trap(_, _) => End::Trapped,
        Stop::Spent => End::Spent,
    }
}
