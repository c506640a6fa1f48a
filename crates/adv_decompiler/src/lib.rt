//! A database as the text of a source, which means that database again.
#![tactic(auto)]

mod sizes;

// The tokens of the text.
mod references;

// An action: how it is written, and its line.
mod actions;
mod conditions;
mod heads;
mod opcodes;
mod parameters;
mod written;

// The lines of the other entries, and the whole.
mod decompiling;
mod entries;
pub mod laws;
mod lists;
pub mod worked;

pub use decompiling::decompile;
