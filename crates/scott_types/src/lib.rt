//! The database of a game, the state of a play, and the numbers of the file as the conditions and
//! opcodes that they stand for.
#![tactic(auto)]

// The database and its limits.
pub mod databases;
mod limits;
pub mod lists;
pub mod parts;
pub mod texts;

// Its texts and numbers, unpacked.
pub mod action_lines;
pub mod conditions;
pub mod exits;
pub mod item_texts;
pub mod opcodes;
pub mod parameters;
pub mod verbs;

// A play: its state and style, what a line means, how things end, and the fixed texts.
pub mod commands;
pub mod endings;
mod fitting;
pub mod phrases;
pub mod places;
pub mod states;
pub mod styles;

// Laws of the above.
pub mod laws;

pub use action_lines::{condition, opcode};
pub use commands::{Column, Heard, Words};
pub use conditions::Condition;
pub use databases::Db;
pub use endings::{Ending, Found, Halt, Position, Ran, Transfer};
pub use exits::{exit, room_beyond};
pub use item_texts::{get_word, is_treasure, shown, starts_with_star};
pub use opcodes::{CounterOp, FlagOp, ItemOp, Opcode, RoomOp, TalkOp};
pub use parameters::Parameter;
pub use parts::{Action, Header, Item, Parts, Room, Trailer, Word};
pub use phrases::Phrase;
pub use states::State;
pub use styles::Style;
pub use texts::Text;
