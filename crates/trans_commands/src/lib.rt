//! What a heard command does in a translated game: moving, getting and dropping, and the refusals.
#![tactic(auto)]

// The names that the routines speak of, and the texts that they say.
mod names;

// The routines, those that call others first.
mod commanding;
mod items;
mod transfers;
mod walking;

// All of them as directives, and that they meet their specifications.
mod emitting;
pub mod laws;

pub use emitting::commands;
