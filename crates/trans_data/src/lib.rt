//! The tables of a translated game, and the routines that say its texts, count its light and tell
//! about its items.
#![tactic(auto)]

// The routines as codes, smallest first, and what they are written with.
mod helpers;
mod lights;
mod listing;
mod names;
mod numbers;
mod scoring;

// All of them as directives.
mod routines;

// The texts of the database.
mod choices;
mod descriptions;
mod messages;

// The nouns, each found by one look-up.
mod nouns;

// The globals and arrays.
mod classes;
mod entries;
mod exit_tables;
mod fixed_tables;
mod item_tables;
mod state_tables;
mod word_tables;

// All of them.
mod emitting;

// That the routines meet their specifications.
pub mod laws;

pub use emitting::tables;
