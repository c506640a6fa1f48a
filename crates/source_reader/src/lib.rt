//! The source language: reading a text as the tree of a source, with the first fault that is
//! reached.
#![tactic(auto)]

mod conditions;
mod entries;
mod fault_texts;
mod faults;
pub mod laws;
mod lines;
mod lists;
mod names;
mod opcodes;
mod reading;
mod scanning;
mod sequences;
mod settings;
mod singles;
mod titles;
mod token_laws;
mod tokens;
mod tree;

pub use faults::SourceFault;
pub use names::{condition_word, opcode_word};
pub use reading::read_source;
pub use sequences::Seq;
pub use tree::{
    At, Bytes, Cond, Entries, Head, ItemPart, LinePart, MessagePart, Op, Ref, RoomPart, Source,
    Spot, Vocab, WordPart,
};
