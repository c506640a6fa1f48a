//! Runs of Inform programs that are made in pieces: what happened before a piece makes no
//! difference to it, where a run that waits stands, and that the pieces, one after the other, are
//! the whole run and enter what it enters.
#![tactic(auto)]

// The laws.
pub mod laws;
