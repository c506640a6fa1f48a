//! The turn: groups of action lines, commands, rounds, and the session that plays a game.
#![tactic(auto)]

// Groups of action lines.
mod automatic;
mod games;
mod heads;
mod searching;
mod trying;

// What commands do by themselves: get, drop and go.
mod all_items;
mod choosing;
mod item_turns;
mod saying;
mod transferring;
mod walking;

// A command, the answer to a line, and what is done up to the prompt.
mod advancing;
mod answering;
mod commands;

// Rounds, and the session.
mod feeding;
mod rounds;
mod sessions;

// Laws of where a play stands.
pub mod laws;

pub use heads::is_automatic;
pub use scott_types::{Ending, Position};
pub use sessions::Session;
