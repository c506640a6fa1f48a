//! Numbers and quoted strings in a text file: reading them from left to right, and writing them.
#![tactic(auto)]

mod bytes;
mod fast;
pub mod faults;
pub mod laws;
mod quoted;
pub mod scan;
pub mod writing;

pub use adv_io::Memory;
pub use faults::TextFault;
pub use scan::Scan;
pub use writing::{put_integer, put_number, put_quoted};
