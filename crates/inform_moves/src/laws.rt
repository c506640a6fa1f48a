//! The laws of moves. Each is the contract of a function that does nothing.
ghost use Rattle.inform_moves.specs.Laws.{RunsAdd, MovesMean, MovesFall, MovesNeed, MovesOpen, FramesAreFew, RoomIsLeft};

/// Whatever is handed to its innermost frame, a run only adds to what happened, and takes lines and
/// draws from the front.
#[tactic(auto, using(crate::proofs::Running::runs_add))]
pub fn runs_add()
    ensures { RunsAdd }
{}

/// A run does what the move of its innermost frame does.
#[tactic(auto, using(crate::proofs::Running::moves_mean))]
pub fn moves_mean()
    ensures { MovesMean }
{}

/// A move without a step leaves less work.
#[tactic(auto, using(crate::proofs::Falling::moves_fall))]
pub fn moves_fall()
    ensures { MovesFall }
{}

/// What a move needs is told by its frame and by what is handed to it.
#[tactic(auto, using(crate::proofs::Needing::moves_need))]
pub fn moves_need()
    ensures { MovesNeed }
{}

/// No move opens more calls than may be open.
#[tactic(auto, using(crate::proofs::Fitting::moves_open))]
pub fn moves_open()
    ensures { MovesOpen }
{}

/// The frames that may stand in the place of one, and those after it, are few.
#[tactic(auto, using(crate::proofs::Fitting::frames_are_few))]
pub fn frames_are_few()
    ensures { FramesAreFew }
{}

/// The room for calls is what is left of the limit.
#[tactic(auto, using(crate::proofs::Fitting::room_is_left))]
pub fn room_is_left()
    ensures { RoomIsLeft }
{}
