//! The routines of the score, as codes.
use crate::names::{
    GAME_OVER, GOLD, HAVE_STORED, HUNDREDTHS_NAME, I, ITEM, LIST_END, N, RATING, STORED_NAME,
    WELL_DONE,
};
use crate::numbers::{DIVISOR, GOAL, HOME, ITEMS};
use inform_codes::{Code, inform};

/// How many treasures are stored.
pub const STORED: [Code; 21] = inform! {
    for (I = 0; I < [ITEMS]) {
        if ((true (GOLD-->I)) && ((ITEM-->I) == [HOME])) { N++; }
    }
    return N;
};

/// The hundredths that so many treasures are.
pub const HUNDREDTHS: [Code; 7] = inform! { return ((N * 100) / [DIVISOR]); };

/// The same where the treasures to store are a negative number.
pub const LESS_HUNDREDTHS: [Code; 8] = inform! { return (-((N * 100) / [DIVISOR])); };

/// The score is said; it gives 1 where all treasures are stored, and else 0.
pub const SCORE: [Code; 24] = inform! {
    N = (STORED_NAME());
    print HAVE_STORED;
    print value N;
    print RATING;
    print value (HUNDREDTHS_NAME(N));
    print LIST_END;
    if (N == [GOAL]) { print WELL_DONE; print GAME_OVER; rtrue; }
    rfalse;
};
