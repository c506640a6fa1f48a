//! The routines of opcodes, as codes. Each takes the parameters that its opcode has. What isn't
//! there, an item, a room, a flag or a backup, is left alone.
use crate::names::{
    A, B, BUF, CTR, CUR, DEAD, FLAG, FULL, GAME_OVER, HERE, I, INVENTORY, ITEM, LIGHT, LOOK,
    MOVE_ITEM, NB, NO_SAVING, OP_52, OVER, PLACE, REDRAW, RSAVE, SAVED, SCORE, TOO_MUCH, WB,
};
use crate::numbers::{ITEMS, LAST, LASTS, ROOMS};
use crate::table::Helper;
use inform_codes::{Code, inform};
use scott_types::places::{CARRIED, DARK_FLAG, LAMP, OUT_FLAG};

// An item goes to a place, and the room is described again where the item was here or comes here.
const MOVING: &[Code] = &inform! {
    if (A < [ITEMS]) {
        if (((ITEM-->A) == HERE) || (B == HERE)) { REDRAW = 1; }
        ITEM-->A = B;
    }
};

// ---- items

const GETTING: &[Code] = &inform! {
    if (true (FULL())) { print TOO_MUCH; rfalse; }
    MOVE_ITEM(A, { CARRIED });
    rtrue;
};

const DROPPING: &[Code] = &inform! { MOVE_ITEM(A, HERE); };

const REMOVING: &[Code] = &inform! { MOVE_ITEM(A, 0); };

const PUTTING: &[Code] = &inform! {
    if (A < [ITEMS]) { ITEM-->A = (B % 256); REDRAW = 1; }
};

const SWAPPING: &[Code] = &inform! {
    if ((A < [ITEMS]) && (B < [ITEMS])) {
        I = (ITEM-->A);
        MOVE_ITEM(A, (ITEM-->B));
        MOVE_ITEM(B, I);
    }
};

const TAKING: &[Code] = &inform! { MOVE_ITEM(A, { CARRIED }); };

const JOINING: &[Code] = &inform! { MOVE_ITEM(A, (PLACE(B))); };

const REFILLING: &[Code] = &inform! {
    LIGHT = [LASTS];
    FLAG-->{ OUT_FLAG } = 0;
    MOVE_ITEM({ LAMP }, { CARRIED });
};

const KEEPING_LIGHT: &[Code] = &inform! {
    LIGHT = (-1);
    FLAG-->{ OUT_FLAG } = 0;
    MOVE_ITEM({ LAMP }, { CARRIED });
};

// ---- rooms and flags

const GOING: &[Code] = &inform! { if (A < [ROOMS]) { HERE = A; REDRAW = 1; } };

const SWAPPING_SAVED: &[Code] = &inform! { I = HERE; HERE = SAVED; SAVED = I; REDRAW = 1; };

const SWAPPING_ROOM: &[Code] = &inform! {
    if (A < 16) { I = HERE; HERE = (RSAVE-->A); RSAVE-->A = I; REDRAW = 1; }
};

const DARKENING: &[Code] = &inform! { FLAG-->{ DARK_FLAG } = 1; };

const LIGHTENING: &[Code] = &inform! { FLAG-->{ DARK_FLAG } = 0; };

const SETTING: &[Code] = &inform! { if (A < 32) { FLAG-->A = 1; } };

const CLEARING: &[Code] = &inform! { if (A < 32) { FLAG-->A = 0; } };

const SETTING_ZERO: &[Code] = &inform! { FLAG-->0 = 1; };

const CLEARING_ZERO: &[Code] = &inform! { FLAG-->0 = 0; };

const DYING: &[Code] = &inform! {
    print DEAD;
    FLAG-->{ DARK_FLAG } = 0;
    HERE = [LAST];
    LOOK();
};

// ---- counters: no sum leaves -32,768..32,767

const COUNTING_DOWN: &[Code] = &inform! { if (CUR >= 0) { CUR--; } };

const SETTING_COUNTER: &[Code] = &inform! { if (A > 32767) { CUR = 32767; rtrue; } CUR = A; };

const SWAPPING_COUNTER: &[Code] = &inform! {
    if (A < 16) { I = CUR; CUR = (CTR-->A); CTR-->A = I; }
};

const ADDING: &[Code] = &inform! {
    if (A > 32767) { CUR = 32767; rtrue; }
    if (CUR > (32767 - A)) { CUR = 32767; rtrue; }
    CUR = (CUR + A);
};

const SUBTRACTING: &[Code] = &inform! { if (A > CUR) { CUR = (-1); rtrue; } CUR = (CUR - A); };

// ---- what is said

const LOOKING: &[Code] = &inform! { LOOK(); };

const LISTING: &[Code] = &inform! { INVENTORY(); };

const NOT_SAVING: &[Code] = &inform! { print NO_SAVING; };

const SAYING_COUNTER: &[Code] = &inform! { print value CUR; };

const SAYING_NOUN: &[Code] = &inform! { for (I = 0; I < NB) { print char (BUF->(WB + I)); } };

const SAYING_NOUN_LINE: &[Code] = &inform! { OP_84(); new_line; };

const ENDING_LINE: &[Code] = &inform! { new_line; };

const NOTHING: &[Code] = &inform! {};

// ---- endings

const FINISHING: &[Code] = &inform! { print GAME_OVER; OVER = 1; quit; };

const SCORING: &[Code] = &inform! { if (true (SCORE())) { OVER = 3; quit; } };

const OP_84: usize = OP_52 + 32;

/// The opcodes in the order of their numbers, and what they call. A routine is there where a line
/// has one of the opcodes that stand before it.
pub const OPCODES: [Helper; 37] = [
    (
        &[52, 53, 55, 59, 69, 72, 74, 75],
        MOVE_ITEM,
        &[A, B],
        MOVING,
    ),
    (&[52], OP_52, &[A], GETTING),
    (&[53], OP_52 + 1, &[A], DROPPING),
    (&[54], OP_52 + 2, &[A], GOING),
    (&[55], OP_52 + 3, &[A], REMOVING),
    (&[56], OP_52 + 4, &[], DARKENING),
    (&[57], OP_52 + 5, &[], LIGHTENING),
    (&[58], OP_52 + 6, &[A], SETTING),
    (&[59], OP_52 + 7, &[A], REMOVING),
    (&[60], OP_52 + 8, &[A], CLEARING),
    (&[61], OP_52 + 9, &[], DYING),
    (&[62], OP_52 + 10, &[A, B], PUTTING),
    (&[63], OP_52 + 11, &[], FINISHING),
    (&[64], OP_52 + 12, &[], LOOKING),
    (&[65], OP_52 + 13, &[], SCORING),
    (&[66], OP_52 + 14, &[], LISTING),
    (&[67], OP_52 + 15, &[], SETTING_ZERO),
    (&[68], OP_52 + 16, &[], CLEARING_ZERO),
    (&[70], OP_52 + 18, &[], NOTHING),
    (&[71], OP_52 + 19, &[], NOT_SAVING),
    (&[72], OP_52 + 20, &[A, B, I], SWAPPING),
    (&[74], OP_52 + 22, &[A], TAKING),
    (&[75], OP_52 + 23, &[A, B], JOINING),
    (&[76], OP_52 + 24, &[], LOOKING),
    (&[77], OP_52 + 25, &[], COUNTING_DOWN),
    (&[78], OP_52 + 26, &[], SAYING_COUNTER),
    (&[79], OP_52 + 27, &[A], SETTING_COUNTER),
    (&[80], OP_52 + 28, &[I], SWAPPING_SAVED),
    (&[81], OP_52 + 29, &[A, I], SWAPPING_COUNTER),
    (&[82], OP_52 + 30, &[A], ADDING),
    (&[83], OP_52 + 31, &[A], SUBTRACTING),
    (&[84, 85], OP_84, &[I], SAYING_NOUN),
    (&[85], OP_52 + 33, &[], SAYING_NOUN_LINE),
    (&[86], OP_52 + 34, &[], ENDING_LINE),
    (&[87], OP_52 + 35, &[A, I], SWAPPING_ROOM),
    (&[88], OP_52 + 36, &[], NOTHING),
    (&[89], OP_52 + 37, &[A], NOTHING),
];

/// Opcode 69, where the light burns down.
pub const REFILL: [Helper; 1] = [(&[69], OP_52 + 17, &[], REFILLING)];

/// The same where it never does.
pub const ENDLESS_REFILL: [Helper; 1] = [(&[69], OP_52 + 17, &[], KEEPING_LIGHT)];
