//! The text of a database: reading one, with the first fault that is reached, and writing one.
#![tactic(auto)]

mod bodies;
mod fault_texts;
mod faults;
mod header;
pub mod laws;
mod lines;
mod lists;
mod numbers;
mod pieces;
mod readers;
mod reading;
mod stops;
mod text_laws;
mod writing;

pub use faults::{Field, FormatFault};
pub use readers::{DATABASE_LIMIT, DbReader};
pub use reading::read_db;
pub use writing::write_db;
