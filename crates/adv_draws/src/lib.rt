//! The draws of a play: numbers of 1..100, from a text that lists them or from a seed.
#![tactic(auto)]

// The text that lists draws.
pub mod faults;
mod runs;
mod texts;

// What is left to draw.
pub mod supplies;

// Laws of the above.
pub mod laws;

pub use faults::DrawFault;
pub use supplies::Draws;
