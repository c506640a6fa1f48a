//! Where a database has a number that a translated game needs as a word.

/// A place of such a number: a line by its number, a condition by 1 to 5, an opcode by 1 or 3.
#[derive(Clone, Copy, Debug, PartialEq, Eq)]
pub enum Place {
    /// The most items that can be carried.
    Carry,
    /// The number of treasures.
    Treasures,
    /// The light time.
    Light,
    /// The treasure room.
    Home,
    /// The verb of a line.
    Verb(u16),
    /// The argument of a condition.
    Condition(u16, u8),
    /// The first opcode of a pair.
    Opcode(u16, u8),
}
