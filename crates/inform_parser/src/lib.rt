//! The parser of the Inform profile: the tree of the program that tokens are, or the first fault.
#![tactic(auto)]

// What it answers.
mod fault_texts;
pub mod faults;

// The tokens that are left.
mod begins;
mod cursor;
mod ends;
mod stops;

// The rules of the grammar, from constants up.
mod bodies;
mod changes;
mod choices;
mod conditions;
mod directives;
mod guards;
mod heads;
mod parts;
mod printing;
mod simple;
mod values;

// The whole.
mod parsing;

pub use faults::ParseFault;
pub use parsing::parse;
