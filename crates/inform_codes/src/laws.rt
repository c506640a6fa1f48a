//! The laws of codes. Each is the contract of a function that does nothing else.
ghost use Rattle.inform_codes.specs.Laws.{CodesJoin, BodiesJoin};

/// Codes that stand before others take what those leave.
#[tactic(auto, using(crate::proofs::Joins::codes_join))]
pub fn codes_join()
    ensures { CodesJoin }
{}

/// Statements that are grown before a body are the body that all their codes are.
#[tactic(auto, using(crate::proofs::Joins::bodies_join))]
pub fn bodies_join()
    ensures { BodiesJoin }
{}
