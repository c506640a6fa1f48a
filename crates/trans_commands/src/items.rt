//! One item: whether it can be taken, and where it goes. The verb says whether items are got or
//! dropped.
use crate::names::{AT_HAND_NAME, CLASS, FULL, HERE, ICLASS, IGET, INDEX, ITEM, REDRAW, VERB};
use inform_codes::{Code, inform};
use scott_types::places::CARRIED;
use scott_types::verbs::GET;

/// What is here can be got, and what is carried can be dropped.
pub const AT_HAND: [Code; 25] = inform! {
    if (VERB == { GET }) {
        if ((ITEM-->INDEX) == HERE) { rtrue; }
        rfalse;
    }
    if ((ITEM-->INDEX) == { CARRIED }) { rtrue; }
    rfalse;
};

/// An item is taken with all others where it is at hand and has a word.
pub const CAN_TAKE: [Code; 17] = inform! {
    if ((true (AT_HAND_NAME(VERB, INDEX))) && (true (IGET-->INDEX))) { rtrue; }
    rfalse;
};

/// No more can be got with full hands.
pub const IS_REFUSED: [Code; 13] = inform! {
    if ((VERB == { GET }) && (true (FULL()))) { rtrue; }
    rfalse;
};

/// An item is carried, or lies here, and the room is described again.
pub const PUT_ITEM: [Code; 15] = inform! {
    if (VERB == { GET }) {
        ITEM-->INDEX = { CARRIED };
    } else {
        ITEM-->INDEX = HERE;
    }
    REDRAW = 1;
};

/// The least item that is at hand and has this class, or how many items there are where none has.
pub const FIND_ITEM: [Code; 34] = inform! {
    if (CLASS == 0) { return [0]; }
    for (INDEX = 0; INDEX < [0]) {
        if ((true (AT_HAND_NAME(VERB, INDEX))) && ((ICLASS-->INDEX) == CLASS)) { return INDEX; }
    }
    return [0];
};
