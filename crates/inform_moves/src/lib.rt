//! A run of an Inform program move by move: what takes the place of the innermost frame, that this
//! is what the program means, and that it takes few frames and uses a step before long.
#![tactic(auto)]

pub mod laws;
