//! The groups of a translated game: a routine for each head, which tries its line and its tail, and
//! the automatic step and the search, which call them.
#![tactic(auto)]

// The routines of groups, the automatic step and the search, and all of them.
mod emitting;
mod searching;
mod stepping;
mod trying;

// That they meet their specifications.
pub mod laws;

pub use emitting::groups;
pub use searching::search;
pub use stepping::automatic;
pub use trying::groups_tried;
