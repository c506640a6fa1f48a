//! The lines of a translated game: a routine each, and the routines of conditions and opcodes that
//! they call.
#![tactic(auto)]

// The names and numbers of which the routines speak.
mod names;
mod numbers;

// The routines of conditions and opcodes, as codes, and those that are there.
mod conditions;
mod opcodes;
mod table;

// The routine of a line.
mod bodies;
mod calls;

// All of them.
mod emitting;

// That they meet their specifications.
pub mod laws;

pub use emitting::actions;
