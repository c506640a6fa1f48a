//! What becomes of a part of a run.
use inform_meaning::Trap;

/// How a run is over.
#[derive(Clone, Copy)]
pub enum Halt {
    Quits,
    /// In the routine that is the directive of this number.
    Trapped(Trap, usize),
}

/// The outcome of a part that is finished.
#[derive(Clone, Copy)]
pub enum Signal {
    Value(i32),
    Truth(bool),
    Normal,
    Returns(i32),
    Breaks,
    Continues,
    Halts(Halt),
}
