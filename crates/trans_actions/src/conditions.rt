//! The routines of conditions, as codes. Each takes its argument, and gives 1 where the condition
//! holds and else 0. An item that isn't there is at place 0, and a flag above 31 is clear.
use crate::names::{A, CARRIED, COND_1, CUR, FLAG, HERE, ITEM, NEAR, PLACE, START};
use crate::numbers::ITEMS;
use crate::table::Helper;
use inform_codes::{Code, inform};
use scott_types::places::CARRIED as AT_HAND;

const IS_CARRIED: &[Code] = &inform! { if ((PLACE(A)) == { AT_HAND }) { rtrue; } rfalse; };

const IS_HERE: &[Code] = &inform! { if ((PLACE(A)) == HERE) { rtrue; } rfalse; };

const IS_NEAR: &[Code] = &inform! { if (true (NEAR(A))) { rtrue; } rfalse; };

const IS_AT: &[Code] = &inform! { if (HERE == A) { rtrue; } rfalse; };

const NOT_HERE: &[Code] = &inform! { if ((PLACE(A)) != HERE) { rtrue; } rfalse; };

const NOT_CARRIED: &[Code] = &inform! { if ((PLACE(A)) != { AT_HAND }) { rtrue; } rfalse; };

const NOT_AT: &[Code] = &inform! { if (HERE != A) { rtrue; } rfalse; };

const IS_SET: &[Code] = &inform! { if ((A < 32) && (true (FLAG-->A))) { rtrue; } rfalse; };

const IS_CLEAR: &[Code] = &inform! { if (!((A < 32) && (true (FLAG-->A)))) { rtrue; } rfalse; };

const SOME_CARRIED: &[Code] = &inform! { if ((CARRIED()) > 0) { rtrue; } rfalse; };

const NONE_CARRIED: &[Code] = &inform! { if ((CARRIED()) == 0) { rtrue; } rfalse; };

const NOT_NEAR: &[Code] = &inform! { if (!(true (NEAR(A)))) { rtrue; } rfalse; };

const IN_GAME: &[Code] = &inform! { if ((PLACE(A)) != 0) { rtrue; } rfalse; };

const OUT_OF_GAME: &[Code] = &inform! { if ((PLACE(A)) == 0) { rtrue; } rfalse; };

const AT_MOST: &[Code] = &inform! { if (CUR <= A) { rtrue; } rfalse; };

const OVER: &[Code] = &inform! { if (CUR > A) { rtrue; } rfalse; };

const AT_START: &[Code] = &inform! {
    if ((A >= [ITEMS]) || ((ITEM-->A) == (START-->A))) { rtrue; }
    rfalse;
};

const NOT_AT_START: &[Code] = &inform! {
    if (!((A >= [ITEMS]) || ((ITEM-->A) == (START-->A)))) { rtrue; }
    rfalse;
};

const COUNTER_IS: &[Code] = &inform! { if (CUR == A) { rtrue; } rfalse; };

/// The conditions of the codes from 1 on.
pub const CONDITIONS: [Helper; 19] = [
    (&[1], COND_1, &[A], IS_CARRIED),
    (&[2], COND_1 + 1, &[A], IS_HERE),
    (&[3], COND_1 + 2, &[A], IS_NEAR),
    (&[4], COND_1 + 3, &[A], IS_AT),
    (&[5], COND_1 + 4, &[A], NOT_HERE),
    (&[6], COND_1 + 5, &[A], NOT_CARRIED),
    (&[7], COND_1 + 6, &[A], NOT_AT),
    (&[8], COND_1 + 7, &[A], IS_SET),
    (&[9], COND_1 + 8, &[A], IS_CLEAR),
    (&[10], COND_1 + 9, &[A], SOME_CARRIED),
    (&[11], COND_1 + 10, &[A], NONE_CARRIED),
    (&[12], COND_1 + 11, &[A], NOT_NEAR),
    (&[13], COND_1 + 12, &[A], IN_GAME),
    (&[14], COND_1 + 13, &[A], OUT_OF_GAME),
    (&[15], COND_1 + 14, &[A], AT_MOST),
    (&[16], COND_1 + 15, &[A], OVER),
    (&[17], COND_1 + 16, &[A], AT_START),
    (&[18], COND_1 + 17, &[A], NOT_AT_START),
    (&[19], COND_1 + 18, &[A], COUNTER_IS),
];
