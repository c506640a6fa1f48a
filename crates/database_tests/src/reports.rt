//! Reports on small games.
use crate::expect;
use crate::games::game;
use adv_check::{Part, Warning, What, report, warnings};

// Every exit, item place, condition and opcode of the first is as it should be, but one drop.
const DROP: &[u8] = b"0 0 0 6 2 5 1 0 3 -1 0 0
450 9 9 9 9 9 7950 0
\"\" \"\" \"\" \"\" \"\" \"\" \"\" \"\" \"\" \"\" \"\" \"\" \"\" \"\"
0 0 0 0 0 0 \"\" 2 0 0 0 0 0 \"\" 0 1 0 0 0 0 \"\"
\"\" \"\" 1 \"\" 416 1 0";

// Three lines, two rooms and two items with a fault nearly everywhere.
const FAULTS: &[u8] = b"0 1 2 0 1 5 1 0 3 -1 0 0
450 41 44 648 629 1990 240 13451
450 40 40 640 320 1999 7854 8781
450 20 5080 20 5100 20 9362 30072
\"\" \"\"
0 1 2 -1 0 0 \"\" 0 0 0 0 0 0 \"\"
\"\" \"\" 2 \"\" 255 \"\" \"\" \"\" 416 1 0";

const WARNING: Warning = Warning {
    part: Part::Opcode,
    index: 0,
    place: 1,
    what: What::NoParameter,
    value: 0,
};

#[test]
fn drop_without_a_parameter(rt: HostRuntime) {
    let db = game(&rt, &[DROP]);
    let found = warnings(rt.alloc(), &db).expect(&rt, "memory");
    expect!(rt; found.as_slice() == [WARNING].as_slice());
}

// Games, and the report on each.
const REPORTS: &[(&[u8], &[u8])] = &[
    (
        DROP,
        b"rooms 3, items 1, lines 1, words 7, messages 1\n\
        line 0, opcode 1: no parameter left\n\
        warnings 1\n",
    ),
    (
        FAULTS,
        b"rooms 2, items 2, lines 3, words 1, messages 1\n\
        line 0, condition 1: no item 2\n\
        line 0, condition 2: no room 2\n\
        line 0, condition 3: no flag 32\n\
        line 0, opcode 1: no message 1\n\
        line 0, opcode 2: unused 90\n\
        line 0, opcode 3: no parameter left\n\
        line 0, opcode 4: unused 101\n\
        line 1, opcode 1: no item 2\n\
        line 1, opcode 2: no room 2\n\
        line 1, opcode 3: no flag 32\n\
        line 1, opcode 4: no backup 16\n\
        line 2, opcode 1: no room 254\n\
        line 2, opcode 3: no message 150\n\
        line 2, opcode 4: no parameter left\n\
        room 0, exit 3: no room 2\n\
        room 0, exit 4: no room -1\n\
        item 0: no room 2\n\
        warnings 17\n",
    ),
];

#[test]
fn each_fault_is_named(rt: HostRuntime) {
    for (text, said) in REPORTS {
        let db = game(&rt, &[text]);
        let found = report(rt.alloc(), &db).expect(&rt, "memory");
        expect!(rt; found.as_slice() == *said);
    }
}
