//! The world of a run of an Inform program: its globals, its arrays and the locals of the routine
//! that runs.
#![tactic(auto)]

mod arguments;
mod entries;
mod openings;
mod scopes;
mod slots;
mod worlds;

pub use arguments::Arguments;
pub use scopes::Scope;
pub use worlds::World;
