//! The meaning of the Inform profile: what a program does, step for step, at 16 and at 32 bits.
#![tactic(auto)]

// What ends a run that does what it can't do, and the arithmetic of words.
mod arithmetic;
pub mod traps;

// What is proved of every run.
pub mod laws;
// Worked examples.
pub mod worked;

pub use arithmetic::{add, compares, div, mul, neg, number, rem, sub, wrap};
pub use traps::Trap;
