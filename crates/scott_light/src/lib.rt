//! What a player is told: the look, the inventory, the score and the light.
#![tactic(auto)]

pub mod lamp;
pub mod listing;
pub mod looking;
mod pages;
mod pieces;
pub mod scoring;

pub use lamp::count_light;
pub use looking::{inventory, look, look_after};
pub use scoring::{are_all_stored, score};
