//! Getting and dropping, one item or all. The verb says which of the two it is.
use crate::names::{
    BEYOND_POWER, BUF, CAN_TAKE_NAME, DARK, DARK_GET, DONE, FIND_ITEM_NAME, INDEX, INOUN,
    IS_ALL_NAME, IS_REFUSED_NAME, ITEM_DONE, MARK, MOVE_ALL_NAME, MOVE_NEXT_NAME, MOVE_ONE_NAME,
    NB, NCLASS, NOTHING_DROPPED, NOTHING_TAKEN, NOUN, PUT_ITEM_NAME, SAY_ITEM, SEARCH_NAME,
    TOO_MUCH, VERB, WB, WHAT_ITEM,
};
use inform_codes::{Code, inform};
use scott_types::verbs::GET;

// The letters of `all`.
const SMALL_A: u8 = b'a';

const SMALL_L: u8 = b'l';

/// Everything is got or dropped, or one item.
pub const TRANSFER: [Code; 19] = inform! {
    if (true (IS_ALL_NAME())) { MOVE_ALL_NAME(VERB); rtrue; }
    MOVE_ONE_NAME(VERB, NOUN);
    rtrue;
};

/// Whether the noun text is `all`.
pub const IS_ALL: [Code; 37] = inform! {
    if (NB != 3) { rfalse; }
    if ((BUF->WB) != { SMALL_A }) { rfalse; }
    if ((BUF->(WB + 1)) != { SMALL_L }) { rfalse; }
    if ((BUF->(WB + 2)) != { SMALL_L }) { rfalse; }
    rtrue;
};

/// All items that are at hand and have a word. Getting them needs light.
pub const MOVE_ALL: [Code; 56] = inform! {
    if ((VERB == { GET }) && (true (DARK()))) { print DARK_GET; rtrue; }
    for (INDEX = 0; INDEX < [0]) {
        if (true (CAN_TAKE_NAME(VERB, INDEX))) {
            MARK = 1;
            if (true (MOVE_NEXT_NAME(VERB, INDEX))) { break; }
        }
    }
    if (MARK == 0) {
        if (VERB == { GET }) {
            print NOTHING_TAKEN;
        } else {
            print NOTHING_DROPPED;
        }
    }
};

/// One of all items: the lines for its noun are searched, and it is moved, unless the hands are
/// full. It gives whether they are.
pub const MOVE_NEXT: [Code; 30] = inform! {
    SEARCH_NAME(VERB, (INOUN-->INDEX));
    if (true (IS_REFUSED_NAME(VERB))) { print TOO_MUCH; rtrue; }
    SAY_ITEM(INDEX);
    print ITEM_DONE;
    PUT_ITEM_NAME(VERB, INDEX);
    rfalse;
};

/// The item that a noun names. With full hands none is got, whatever the noun is.
pub const MOVE_ONE: [Code; 42] = inform! {
    if (NOUN == 0) { print WHAT_ITEM; rtrue; }
    if (true (IS_REFUSED_NAME(VERB))) { print TOO_MUCH; rtrue; }
    INDEX = (FIND_ITEM_NAME(VERB, (NCLASS-->NOUN)));
    if (INDEX == [0]) { print BEYOND_POWER; rtrue; }
    PUT_ITEM_NAME(VERB, INDEX);
    print DONE;
};
