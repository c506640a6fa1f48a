//! The laws of runs. Each is the contract of a function that does nothing.
ghost use Rattle.inform_meaning.specs.Laws.{RunsSplit, RunsGo, StopStays, MoreAddsOnly};

/// A run with more steps, lines and draws is the run with fewer that goes on with them from where
/// it stopped, whatever it stopped for and wherever it began.
#[tactic(auto, using(crate::proofs::SplittingRuns::runs_split))]
pub fn runs_split()
    ensures { RunsSplit }
{}

/// What a run takes and draws, followed by what is left, is what there was; it uses no more steps
/// than there were, and what was done before stays.
#[tactic(auto, using(crate::proofs::GoingRuns::runs_go))]
pub fn runs_go()
    ensures { RunsGo }
{}

/// A run that is over stays over: nothing happens any more.
#[tactic(auto, using(crate::proofs::GoingRuns::stop_stays))]
pub fn stop_stays()
    ensures { StopStays }
{}

/// With more steps, lines and draws a run does what it does with fewer, and then perhaps more.
#[tactic(auto, using(crate::proofs::SplittingRuns::more_adds_only))]
pub fn more_adds_only()
    ensures { MoreAddsOnly }
{}
