//! The limits of a program. docs/INFORM.md lists them.

/// The most locals of a routine.
pub const LOCAL_LIMIT: usize = 15;

/// The most arguments of a call.
pub const ARGUMENT_LIMIT: usize = 7;

/// The greatest length of an array.
pub const LENGTH_LIMIT: u32 = 32767;

/// The most entries of all arrays together.
pub const ENTRY_LIMIT: u32 = 4_000_000;

/// The greatest depth of a routine.
pub const DEEPEST: u32 = 64;
