//! What is found wrong in a database. docs/FORMAT.md says what each warning means.

/// What a warning is of.
#[derive(Clone, Copy, PartialEq, Eq)]
pub enum Part {
    /// A condition of an action line.
    Condition,
    /// An opcode of an action line.
    Opcode,
    /// An exit of a room.
    Exit,
    /// The place where an item starts.
    Place,
}

/// What is wrong: mostly what is named and isn't there.
#[derive(Clone, Copy, PartialEq, Eq)]
pub enum What {
    Item,
    Room,
    Flag,
    /// A backup counter or a backup room.
    Backup,
    Message,
    /// A number that no opcode has.
    Unused,
    /// An opcode for which the line has no parameter left.
    NoParameter,
}

/// A warning: where it is, and what is wrong there.
#[derive(Clone, Copy, PartialEq, Eq)]
pub struct Warning {
    pub part: Part,
    /// The number of the action line, the room or the item, from 0.
    pub index: u16,
    /// Which condition, opcode or exit of it, from 1; 0 for an item.
    pub place: u8,
    pub what: What,
    /// The number that names what isn't there, or 0 for a parameter that isn't there.
    pub value: i64,
}

/// What is wrong at one place.
#[derive(Clone, Copy)]
pub struct Fault {
    pub what: What,
    pub value: i64,
}
