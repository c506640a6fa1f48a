//! The printed text of a program of the Inform profile, which reads back as that program.
#![tactic(auto)]

// How a lexeme is written.
mod signs;
mod strings;
mod writing;

// How each part of a program is printed, from its leaves up: expressions.
mod values;
// Conditions.
mod conditions;
// What stands in statements.
mod items;
// Statements.
mod statements;

// Directives, and whole programs.
mod directives;
mod programs;
// The laws of all of it, and worked examples.
pub mod laws;
pub mod worked;

pub use programs::print;
