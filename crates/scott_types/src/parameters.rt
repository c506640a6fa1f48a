//! What the parameters of opcodes and the arguments of conditions name.

/// What a parameter of an opcode, or the argument of a condition, names.
#[derive(Clone, Copy)]
pub enum Parameter {
    Item,
    Room,
    Flag,
    /// A backup counter or a backup room.
    Backup,
    /// A room, or where an item is carried or out of the game.
    Place,
    /// Nothing: a mere number.
    Number,
}
