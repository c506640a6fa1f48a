//! The numbers that the rules give a meaning of their own: verbs, directions and an opcode.

/// The verb that goes in a direction.
pub const GO: u16 = 1;

/// The verb that gets an item.
pub const GET: u16 = 10;

/// The verb that drops an item.
pub const DROP: u16 = 18;

/// The last noun that is a direction. The first is 1.
pub const LAST_DIRECTION: u16 = 6;

/// The verb of the groups that are tried without a command.
pub const AUTOMATIC: u16 = 0;

/// The opcode that goes on with the tail of its group.
pub const MORE: u32 = 73;
