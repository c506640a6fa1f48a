//! A stepper: it goes on with a run step by step, and pauses where a routine is entered or where so
//! many steps were used.
#![tactic(auto)]

// Where a run is to pause, and why it paused.
mod pauses;

// The run up to its next pause.
mod stepping;

// At what a run pauses, again and again.
mod repeats;

// The line that is said at a pause.
mod lines;

// The run that says a line at each pause.
mod running;

// The laws of pauses and of pieces of a runner's run.
pub mod laws;

// A small program on which the definitions compute.
pub mod worked;

pub use lines::say_pause;
pub use pauses::{Paused, Until};
pub use repeats::Pausing;
pub use running::run_with_pauses;
pub use stepping::go;
