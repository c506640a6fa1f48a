//! What the grammar leaves no room for.

/// How many brackets and statements may be open at once. docs/INFORM.md says which lexemes open
/// one.
pub const OPENER_LIMIT: usize = 200;
