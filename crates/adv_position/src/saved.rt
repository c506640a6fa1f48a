//! A play that stopped: what is kept of it.

use scott_types::{Position, State};

/// The most draws that a position can say were taken.
pub const TAKEN_LIMIT: u32 = 1_000_000;

/// A play that stopped: its state, where it stands, and how many draws were taken by then.
#[derive(Drop)]
pub struct Saved {
    pub state: State,
    pub position: Position,
    pub taken: u32,
}

/// The number of the first line of a text that isn't as it is to be, 1 to 8, or 9 where more
/// follows the eighth. docs/FORMAT.md, "Positions", has the lines.
#[derive(Clone, Copy, Debug, PartialEq, Eq)]
pub struct PositionFault(pub u8);
