//! Walking in a direction.
use crate::names::{
    BROKEN_NECK, DARK, DARK_MOVE, EXITS, HERE, MOVED, NO_EXIT_THERE, NO_WAY_NAME, NOUN, OVER,
    REDRAW, ROOM,
};
use inform_codes::{Code, inform};

/// In the dark the player is warned; the exit in the direction of the noun is tried.
pub const WALK: [Code; 31] = inform! {
    if (true (DARK())) { print DARK_MOVE; }
    ROOM = (EXITS-->((6 * HERE) + (NOUN - 1)));
    if (ROOM == 0) { NO_WAY_NAME(); rtrue; }
    print MOVED;
    HERE = ROOM;
    REDRAW = 1;
};

/// Without an exit the player falls in the dark, and the game ends; else the walk is refused.
pub const NO_WAY: [Code; 12] = inform! {
    if (true (DARK())) { print BROKEN_NECK; OVER = 2; quit; }
    print NO_EXIT_THERE;
};
