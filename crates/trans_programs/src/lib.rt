//! The whole program of a translated game, which has a text, is accepted and has the shape of the
//! game.
#![tactic(auto)]

// The program.
mod emitting;

// Its laws.
pub mod laws;

pub use emitting::program;
