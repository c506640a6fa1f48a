//! The codes of a round. docs/TURN.md says what is done in which order.
use crate::names::{
    ADVANCE, ANSWER, ASK, ASKED, AUTOMATIC, BUF, BURN, COMMAND, DESCRIBE, HEAR, I, LOOK, MAIN, NA,
    NOT_KNOWN, PBUF, PROMPT, REDRAW, ROUND, SAY_WORD, UNKNOWN, VNUM, WA,
};
use inform_codes::{Code, Row, inform};

/// Where the room has to be described, it is; it hasn't to be after that.
pub const DESCRIBING: [Code; 10] = inform! { if (true REDRAW) { LOOK(); } REDRAW = 0; };

/// What is done up to the prompt.
pub const ADVANCING: [Code; 8] = inform! {
    DESCRIBE();
    AUTOMATIC();
    DESCRIBE();
    print PROMPT;
};

/// A line is read, into a buffer that has no line and room for one of 120 bytes.
pub const ASKING: [Code; 8] = inform! {
    BUF->0 = 120;
    BUF->1 = 0;
    read BUF PBUF;
};

/// The first word of the line is said.
pub const SAYING_WORD: [Code; 12] = inform! { for (I = 0; I < NA) { print char (BUF->(WA + I)); } };

/// The answer to the line: 1 where a turn was done, and 0 where a line is asked for again.
pub const ANSWERING: [Code; 24] = inform! {
    HEAR();
    if (true VNUM) { COMMAND(); BURN(); rtrue; }
    if (true NA) { print UNKNOWN; SAY_WORD(); print NOT_KNOWN; }
    print PROMPT;
    rfalse;
};

/// A round, or the rest of one whose prompt was said.
pub const ROUNDING: [Code; 19] = inform! {
    if (ASKED == 0) { ADVANCE(); }
    ASK();
    while ((ANSWER()) == 0) { ASK(); }
};

/// All rounds, the first of which is a whole one where the number that is handed in is 0, and else
/// the rest of one.
pub const PLAYING: [Code; 14] = inform! { ROUND([0]); while (0 == 0) { ROUND(0); } };

/// The routines of a round and of all rounds.
pub const ROUNDS: [Row<'static>; 7] = [
    (DESCRIBE, &[], &DESCRIBING),
    (ADVANCE, &[], &ADVANCING),
    (ASK, &[], &ASKING),
    (SAY_WORD, &[I], &SAYING_WORD),
    (ANSWER, &[], &ANSWERING),
    (ROUND, &[ASKED], &ROUNDING),
    (MAIN, &[], &PLAYING),
];
