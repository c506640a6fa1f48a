//! Games from a number: a database and the lines of a play, of parts that a generator of words
//! picks.
#![tactic(auto)]

// What every part is made from: picks, pieces of text, words.
mod parts;
mod picks;
mod texts;
mod vocabulary;

// The parts, each from its number.
mod actions;
mod items;
mod rooms;
mod typed_lines;

// The whole.
pub mod games;
pub mod laws;

pub use games::make;
