//! What a stage of a translated game stands for, and the specifications of the routines of such a
//! game.
#![tactic(auto)]

/// Which numbers a translated game can't hold at a width.
pub mod places;

// Laws of the definitions.
pub mod laws;

// Routines that meet their specifications.
pub mod meeting;

// Worked tables, views and shapes.
pub mod worked;

pub use places::Place;
