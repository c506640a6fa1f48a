//! The routines of items and places, as codes.
use crate::names::{AT, CARRIED_NAME, COUNT_NAME, FLAG, HERE, I, ITEM, N, NEAR_NAME, PLACE_NAME};
use crate::numbers::{CARRY, ITEMS};
use inform_codes::{Code, inform};

/// Where an item is, 0 for one that isn't there.
pub const PLACE: [Code; 11] = inform! { if (I < [ITEMS]) { return (ITEM-->I); } rfalse; };

/// Whether an item is carried or here.
pub const NEAR: [Code; 18] = inform! {
    I = (PLACE_NAME(I));
    if ((I == 255) || (I == HERE)) { rtrue; }
    rfalse;
};

/// Whether it is dark: the flag of darkness is set, and the lamp isn't near.
pub const DARK: [Code; 16] = inform! {
    if (((FLAG-->15) == 0) || (true (NEAR_NAME(9)))) { rfalse; }
    rtrue;
};

/// How many items are at a place.
pub const COUNT: [Code; 17] = inform! {
    for (I = 0; I < [ITEMS]) {
        if ((ITEM-->I) == AT) { N++; }
    }
    return N;
};

/// How many items are carried.
pub const CARRIED: [Code; 6] = inform! { return (COUNT_NAME(255)); };

/// Whether no more can be carried.
pub const FULL: [Code; 10] = inform! { if ((CARRIED_NAME()) == [CARRY]) { rtrue; } rfalse; };
