//! What simplifying an Inform program is, the laws that a simplified program runs alike in at most
//! as many steps and has nothing left to simplify, and who simplifies it.
#![tactic(auto)]

// The laws, and small programs that are simplified.
pub mod laws;
pub mod worked;

// What is known of tests, of trees and of statements.
mod equal_conditions;
mod equal_statements;
mod equal_values;
mod kinds;
mod tests;

// The walk, from the inside out.
mod program;
mod simplifying;

pub use program::simplify;
