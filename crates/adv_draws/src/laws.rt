//! The laws of lists of draws. Each is the contract of a function that does nothing. Together they
//! say what every text lists: it is runs with whitespace between them.
ghost use Rattle.adv_draws.specs.Laws.{NothingLists, RunAlone, SpaceBetween};

/// A text with no bytes lists no draws.
pub fn nothing_lists()
    ensures { NothingLists }
{}

/// A text that is one run lists its draw, or has its fault at its start.
pub fn run_alone()
    ensures { RunAlone }
{}

/// Two texts with a byte of whitespace between them list the draws of both, or have the first fault
/// of both.
pub fn space_between()
    ensures { SpaceBetween }
{}
