//! What a player means: the entry of the vocabulary that a word names, and the command of a line.
#![tactic(auto)]

mod commands;
mod entries;
mod matching;
mod splitting;
mod vocabularies;
mod vocabulary;

pub use commands::{command, is_direction};
pub use entries::{Entry, entry_at, entry_text, spelling};
pub use matching::{is_typed, letters};
pub use scott_types::{Column, Heard, Words};
pub use splitting::{split, typed_noun, word_at};
pub use vocabularies::Vocabulary;
pub use vocabulary::{root, which};
