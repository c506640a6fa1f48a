//! The rules of the game: what a line means, and what every play of a database says and leaves.
//!
//! The definitions are in specs/, in the order in which a reader learns the game; docs/TURN.md says
//! them in words. The functions here do nothing: their contracts are the laws of the definitions,
//! and worked games that compute.
#![tactic(auto)]

pub mod laws;
pub mod worked;
