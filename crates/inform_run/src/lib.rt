//! The runner: it runs an accepted Inform program as the program means, step for step, on a
//! console.
#![tactic(auto)]

// What has begun and isn't finished, and how it goes on until it stops.
mod machines;
mod stops;

// A run from its beginning, and on from where it stopped.
mod runners;

pub use runners::Runner;
pub use stops::Stop;
