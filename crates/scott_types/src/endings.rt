//! How action lines, groups and plays end.

/// What became of an action line, or of a head with its tail.
#[derive(Clone, Copy, PartialEq, Eq)]
pub enum Ran {
    /// A condition didn't hold.
    Not,
    /// It passed; whether the actions after it are tried.
    Passed(bool),
    /// It ended the game.
    Over(u8),
}

/// What became of the search for a command's group.
#[derive(Clone, Copy)]
pub enum Found {
    /// The game was ended.
    Over(u8),
    /// A head passed.
    Done,
    /// Heads are there for the command, and none passed.
    Matched,
    /// No head is there for it.
    NoMatch,
}

/// How far the automatic step came.
#[derive(Clone, Copy)]
pub enum Halt {
    /// Through all groups.
    Through,
    /// To the group whose head is this line, which waits for its draw.
    Waits(u16),
    /// To the game's end.
    Over(u8),
}

/// Where a play stands.
#[derive(Clone, Copy, PartialEq, Eq)]
pub enum Position {
    /// A round begins.
    Fresh,
    /// The automatic group whose head is this line waits for its draw.
    Draw(u16),
    /// The prompt was said, and a line is waited for.
    Line,
    /// The game is over: 1 by an opcode, 2 by a fall in the dark, 3 by a full score.
    Over(u8),
}

/// Why a play stopped.
#[derive(Clone, Copy, PartialEq, Eq)]
pub enum Ending {
    /// The game is over: 1 by an opcode, 2 by a fall in the dark, 3 by a full score.
    Over(u8),
    NeedsLine,
    NeedsDraw,
}

/// What becomes of an item by the game's own get and drop.
#[derive(Clone, Copy)]
pub enum Transfer {
    PickUp,
    PutDown,
}
