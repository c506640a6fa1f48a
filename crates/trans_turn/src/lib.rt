//! The rounds of a translated game: what is done up to the prompt, the answer to a line, and all
//! rounds one after the other.
#![tactic(auto)]

// The names, the codes of the routines, and their directives.
pub mod codes;
mod emitting;
pub mod names;

// That they meet their specifications.
pub mod laws;

pub use emitting::turn;
