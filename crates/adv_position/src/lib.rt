//! A play that stopped, as a text: how it is written, and how it is read back.
#![tactic(auto)]

// What is kept of a play, and its text.
pub mod saved;
pub mod writing;

// Reading it.
mod lines;
mod numbers;
mod reader;
pub mod reading;

// Laws of the text.
pub mod laws;

pub use reading::read_position;
pub use saved::{PositionFault, Saved, TAKEN_LIMIT};
pub use writing::position_text;
