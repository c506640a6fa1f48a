//! The laws of counts. Each is the contract of a function that does nothing.
ghost use Rattle.adv_counts.specs.Laws.{CountsAdd, CountsRise, CountsStay};

/// To count some numbers and then others is to count them all.
#[tactic(auto, using(crate::proofs::Counting::counts_add))]
pub fn counts_add()
    ensures { CountsAdd }
{}

/// Each count rises by how often its number is among those that are counted, up to the greatest.
#[tactic(auto, using(crate::proofs::Counting::counts_rise))]
pub fn counts_rise()
    ensures { CountsRise }
{}

/// There are as many counts as before.
#[tactic(auto, using(crate::proofs::Counting::counts_stay))]
pub fn counts_stay()
    ensures { CountsStay }
{}
