//! Reading an Inform source: from its bytes to an accepted program, or to what is wrong with it
//! first.
#![tactic(auto)]

// What may be wrong, and what is said of it.
mod fault_texts;
pub mod faults;

// Reading.
mod reading;

// Laws.
pub mod laws;

pub use faults::ProgramFault;
pub use reading::{PROGRAM_LIMIT, read_program};
