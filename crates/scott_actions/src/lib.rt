//! What an action line does: its conditions, its opcodes, and the line as a whole.
#![tactic(auto)]

mod conditions;

// What an opcode changes: items, the room, flags, counters.
mod counters;
mod flags;
mod items;
mod rooms;

// What it says, and all that it does.
mod actions;
mod effects;
mod messages;

pub use actions::perform;
pub use conditions::{holds, passes};
pub use items::is_full;
pub use scott_types::Ran;
