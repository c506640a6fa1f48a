//! What can happen in a play, seen from the outside.
use crate::lines::Line;

/// One step of a play: a byte is said, a line is taken, or a draw of 1..100 is taken.
///
/// A trace is a list of events in the order in which they happened.
#[derive(Drop)]
pub enum Event {
    Say(u8),
    Take(Line),
    Draw(u8),
}
