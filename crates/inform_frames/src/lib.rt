//! The frames of a run of an Inform program: what has begun and isn't finished, what is handed to it,
//! and the stack of all of it.
#![tactic(auto)]

mod frames;
mod signals;
mod stacks;

pub use frames::{Begin, Decide, Frame, Loop, Want};
pub use signals::{Halt, Signal};
pub use stacks::{CALLS, Stack, Top};
