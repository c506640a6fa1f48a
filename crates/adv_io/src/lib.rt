//! Where a game meets the outside: files by their names, a console that says bytes and takes typed
//! lines, and the events of a play.
#![tactic(auto)]

// What passes: bytes, lines, events and faults.
pub mod bytes;
pub mod events;
pub mod faults;
pub mod lines;

// What a program is lent.
pub mod consoles;
pub mod saying;
pub mod shelves;

// Both in memory.
mod calls;
pub mod memory_console;
pub mod memory_shelf;
pub mod script_console;

// Both of the system.
pub mod disk_shelf;
mod reading;
pub mod std_console;
mod writing;

pub use bytes::is_whitespace;
pub use consoles::{Console, Taken};
pub use disk_shelf::DiskShelf;
pub use events::Event;
pub use faults::{ConsoleFault, Memory, ShelfFault};
pub use lines::Line;
pub use memory_console::MemoryConsole;
pub use memory_shelf::MemoryShelf;
pub use saying::{SayBuffer, say_all, say_both, say_unless_empty};
pub use script_console::ScriptConsole;
pub use shelves::Shelf;
pub use std_console::StdConsole;
