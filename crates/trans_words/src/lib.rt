//! The word reader of a translated game: the routines that find in a line what the rules hear.
#![tactic(auto)]

// The routines, as codes: those that read a line,
mod lines;

// and those that find the entry that a word names.
mod columns;

// The directives.
mod emitting;

// Laws.
pub mod laws;

pub use emitting::words;
