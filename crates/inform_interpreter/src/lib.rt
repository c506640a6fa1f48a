//! The interpreter: it does what the parts of an Inform program mean, by the tree of the program. A
//! frame is made only where it stops, for each part that has begun and isn't finished.
#![tactic(auto)]

// How a part is left before its end, and what waits then.
mod exits;
mod firsts;
mod interpreters;

// Values, conditions, changes, and what is said.
mod changes;
mod conditions;
mod prints;
mod sums;
mod values;
mod words;

// Calls, loops, choices and statements.
mod calls;
mod choices;
mod loops;
mod statements;

// Going on where a run stopped.
mod handing;

pub use exits::{Exit, Lack, Stopped};
pub use handing::halt_of;
pub use interpreters::Interpreter;
