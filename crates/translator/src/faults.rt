//! Why a database isn't translated.
use trans_specs::Place;

/// A number that is too wide, or want of memory.
#[derive(Clone, Copy, Debug, PartialEq, Eq)]
pub enum TransFault {
    /// The first number that is no word of the width, with its place.
    Wide(Place, i64),
    Memory,
}
