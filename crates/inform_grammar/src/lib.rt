//! The grammar of the Inform profile over lexemes: which lists of them are a program, which program
//! each is, and where the first fault of any other list stands.
#![tactic(auto)]

pub mod laws;
pub mod limits;

// Worked examples.
pub mod worked;
