//! The routines of the light, as codes.
use crate::names::{
    FLAG, IS_DIM, IS_OUT, ITEM, LASTS, LIGHT, LIGHT_OUT, NEAR_NAME, PLACE_NAME, SAY_LIGHT, TURNS,
};
use inform_codes::{Code, inform};

/// What is said of the light where its turns are counted.
pub const COUNTED_LIGHT: [Code; 20] = inform! {
    if (LIGHT < 1) { print IS_OUT; rtrue; }
    if (LIGHT < 25) { print LASTS; print value LIGHT; print TURNS; }
    rtrue;
};

/// What is said of it where they aren't.
pub const DIM_LIGHT: [Code; 25] = inform! {
    if (LIGHT < 1) { print IS_OUT; rtrue; }
    if (LIGHT < 25) {
        if ((LIGHT % 5) == 0) { print IS_DIM; }
    }
    rtrue;
};

/// The light goes out.
pub const OUT: [Code; 5] = inform! { FLAG-->16 = 1; rtrue; };

/// And the lamp goes out of the game.
pub const VANISHED: [Code; 8] = inform! {
    FLAG-->16 = 1;
    ITEM-->9 = 0;
    rtrue;
};

/// A turn of the light.
pub const BURN: [Code; 36] = inform! {
    if (((PLACE_NAME(9)) == 0) || (LIGHT == (-1))) { rtrue; }
    LIGHT--;
    if (true (NEAR_NAME(9))) { SAY_LIGHT(); }
    if (LIGHT < 1) { LIGHT_OUT(); }
    rtrue;
};
