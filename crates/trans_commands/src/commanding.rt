//! A command: going, and what any other verb does.
use crate::names::{
    MARK, NEED_DIRECTION, NNUM, NOT_UNDERSTOOD, NOT_YET, NOUN, OBEY_NAME, SEARCH_NAME,
    TRANSFER_NAME, VERB, VNUM, WALK_NAME,
};
use inform_codes::{Code, inform};
use scott_types::verbs::{DROP, GET, GO, LAST_DIRECTION};

/// Going asks for a direction, and goes there. Any other verb is obeyed, and going with another
/// noun too.
pub const COMMAND: [Code; 33] = inform! {
    if (VNUM == { GO }) {
        if (NNUM == 0) { print NEED_DIRECTION; rtrue; }
        if (NNUM <= { LAST_DIRECTION }) { WALK_NAME(NNUM); rtrue; }
    }
    OBEY_NAME(VNUM, NNUM);
    rtrue;
};

/// The lines are searched for a verb and a noun. Where no head passed, getting and dropping have an
/// effect of their own, and other verbs are refused.
pub const OBEY: [Code; 40] = inform! {
    MARK = (SEARCH_NAME(VERB, NOUN));
    if (MARK == 2) { rtrue; }
    if ((VERB == { GET }) || (VERB == { DROP })) { TRANSFER_NAME(VERB, NOUN); rtrue; }
    if (MARK == 1) {
        print NOT_YET;
    } else {
        print NOT_UNDERSTOOD;
    }
};
