//! An index of words: by the letters of each, as many as count, the number that it names.
#![tactic(auto)]

mod indexes;

// The base entries that the words of a column name.
mod base_entries;

pub use indexes::WordIndex;
