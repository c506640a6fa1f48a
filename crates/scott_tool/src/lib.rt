//! What the program does: words become a request, its files are loaded, the request is done, and a
//! status tells how it ended.
#![tactic(auto)]

// What is loaded, what it holds, why it is refused, and the statuses.
mod contents;
mod loads;
mod refusal_texts;
mod refusals;
mod status;

// What each command does.
mod commands;

// The one call, the status where it can't be made, and a worked play.
mod program;
mod start;
pub mod worked;

pub use program::scott;
pub use start::status_without_words;
