//! The meaning of a source: the database that it stands for, or its first fault.
#![tactic(auto)]

mod fault_texts;
mod faults;

// What names and numbers stand for.
mod names;
mod tables;
mod values;

// The parts of a source, each by itself.
mod compiling;
mod conditions;
mod entries;
mod headers;
mod heads;
mod lines;
mod lists;
mod opcodes;
mod pairs;
mod texts;

pub use compiling::compile;
pub use faults::CompileFault;
