//! The routines of the look and the inventory, as codes.
use crate::names::{
    ALSO_SEE, AT, BETWEEN_EXITS, BETWEEN_ITEMS, CARRYING, COUNT_NAME, DARK_NAME, DOWN, EAST, EXITS,
    HERE, I, ITEM, LIST_END, LIST_EXITS, LIST_ITEMS, N, NEWLINE, NO_EXITS, NORTH, NOTHING, OBVIOUS,
    SAY_ITEM, SAY_ROOM, SAY_WAY, SOUTH, TOO_DARK, UP, WEST,
};
use crate::numbers::ITEMS;
use inform_codes::{Code, inform};

/// The name of a direction is said, by a switch.
pub const WAY: [Code; 28] = inform! {
    switch (I) {
        0: { print NORTH; }
        1: { print SOUTH; }
        2: { print EAST; }
        3: { print WEST; }
        4: { print UP; }
        5: { print DOWN; }
    }
};

/// The exits of the room are listed; it gives 1 where there are some, and else 0.
pub const LISTED_EXITS: [Code; 31] = inform! {
    for (I = 0; I < 6) {
        if (true (EXITS-->((6 * HERE) + I))) {
            if (true N) { print BETWEEN_EXITS; }
            SAY_WAY(I);
            N = 1;
        }
    }
    return N;
};

/// The items at a place are listed.
pub const LISTED_ITEMS: [Code; 27] = inform! {
    for (I = 0; I < [ITEMS]) {
        if ((ITEM-->I) == AT) {
            if (true N) { print BETWEEN_ITEMS; }
            SAY_ITEM(I);
            N = 1;
        }
    }
    rtrue;
};

/// The room is described, with its exits and the items in it, or it is too dark.
pub const LOOK: [Code; 38] = inform! {
    if (true (DARK_NAME())) { print TOO_DARK; rtrue; }
    SAY_ROOM(HERE);
    print OBVIOUS;
    if ((LIST_EXITS()) == 0) { print NO_EXITS; }
    print LIST_END;
    if (true (COUNT_NAME(HERE))) { print ALSO_SEE; LIST_ITEMS(HERE); print NEWLINE; }
    rtrue;
};

/// What is carried is listed.
pub const INVENTORY: [Code; 17] = inform! {
    print CARRYING;
    if (true (COUNT_NAME(255))) {
        LIST_ITEMS(255);
    } else {
        print NOTHING;
    }
    print LIST_END;
    rtrue;
};
