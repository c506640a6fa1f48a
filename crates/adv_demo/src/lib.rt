//! A demonstration of a made game: a play of it, and a run of its translation, side by side.
#![tactic(auto)]

// How a play or a run ended, and what is said of it.
mod summaries;
mod texts;

// The play; the translation, its program and the steps that are enough; and the run.
mod playing;
mod programs;
mod running;
mod steps;

// The whole.
pub mod demonstrations;
pub mod laws;

pub use demonstrations::demonstration;
pub use steps::enough_steps;
pub use summaries::{End, Summary};
