//! The file of a database, which is read from a shelf piece by piece.
#![tactic(auto)]

mod loading;

pub use loading::{PIECE_SIZE, load_db};
