//! When a program is accepted, by its parts: each says which names it takes for granted, and what
//! they are.
#![tactic(auto)]

// The laws, and a worked program.
pub mod laws;
