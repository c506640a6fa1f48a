//! The names that the routines of a round use, each by its place.

/// Routines, locals, arrays and globals. The texts that are said come after them.
pub const NAMES: [&[u8]; 20] = [
    b"main",
    b"round",
    b"advance",
    b"describe",
    b"ask",
    b"answer",
    b"say_word",
    b"automatic",
    b"look",
    b"hear",
    b"command",
    b"burn",
    b"asked",
    b"i",
    b"buf",
    b"pbuf",
    b"redraw",
    b"vnum",
    b"wa",
    b"na",
];

// Routines of this crate.
pub const MAIN: usize = 0;

pub const ROUND: usize = 1;

pub const ADVANCE: usize = 2;

pub const DESCRIBE: usize = 3;

pub const ASK: usize = 4;

pub const ANSWER: usize = 5;

pub const SAY_WORD: usize = 6;

// Routines of other crates.
pub const AUTOMATIC: usize = 7;

pub const LOOK: usize = 8;

pub const HEAR: usize = 9;

pub const COMMAND: usize = 10;

pub const BURN: usize = 11;

// Locals.
pub const ASKED: usize = 12;

pub const I: usize = 13;

// Arrays.
pub const BUF: usize = 14;

pub const PBUF: usize = 15;

// Globals.
pub const REDRAW: usize = 16;

pub const VNUM: usize = 17;

pub const WA: usize = 18;

pub const NA: usize = 19;

// Texts: the prompt, and what stands before and after a word that isn't known.
pub const PROMPT: usize = 20;

pub const UNKNOWN: usize = 21;

pub const NOT_KNOWN: usize = 22;
