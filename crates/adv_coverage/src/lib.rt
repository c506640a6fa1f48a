//! What was reached: how often each line of a game was tried, as a text, and how often each routine
//! of a program was entered.
#![tactic(auto)]

// The text of the counts of a game's lines.
mod reports;

// A run that counts the routines that it enters, and the counts of the routines of lines.
mod calls;
mod lines;

// What is entered from the opening of a program, and that a game and its program count alike.
pub mod laws;

pub use calls::count_calls;
pub use lines::line_counts;
pub use reports::{LINE_LIMIT, report};
