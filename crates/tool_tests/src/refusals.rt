//! Commands that are refused.
use crate::games::T;
use crate::plays::{ASK, HALL};
use crate::trying::{Case, File, NOTHING};

pub const USAGE: &str =
    "usage: scott check F | compile S F | decompile F S | play F | translate F G | run G \
    | demo N | hall F N | transfer F P G | simplify G H | step G | cover F | calls G\n";

const UNASKED: Case<'static> = Case {
    status: 1,
    said: &[USAGE],
    ..NOTHING
};

const NO_REQUESTS: [Case<'static>; 17] = [
    UNASKED,
    Case {
        command: "hall t.dat",
        ..UNASKED
    },
    Case {
        command: "hall t.dat 0",
        ..UNASKED
    },
    Case {
        command: "hall t.dat 65",
        ..UNASKED
    },
    Case {
        command: "hall t.dat two",
        ..UNASKED
    },
    Case {
        command: "hall t.dat 2 seed=1",
        ..UNASKED
    },
    Case {
        command: "run",
        ..UNASKED
    },
    Case {
        command: "run g.inf steps=0",
        ..UNASKED
    },
    Case {
        command: "run g.inf words=8",
        ..UNASKED
    },
    Case {
        command: "play t.dat steps=5",
        ..UNASKED
    },
    Case {
        command: "play",
        ..UNASKED
    },
    Case {
        command: "demo 7",
        ..UNASKED
    },
    Case {
        command: "play t.dat seed=1 seed=2",
        ..UNASKED
    },
    Case {
        command: "play t.dat style=vy",
        ..UNASKED
    },
    Case {
        command: "play t.dat style=",
        ..UNASKED
    },
    Case {
        command: "check no file",
        ..UNASKED
    },
    Case {
        command: "compile t.adv",
        ..UNASKED
    },
];

const ABSENT: [Case<'static>; 2] = [
    Case {
        command: "play t.dat",
        status: 2,
        said: &["cannot read t.dat\n"],
        ..NOTHING
    },
    Case {
        command: "check u.dat",
        status: 2,
        said: &["cannot read u.dat\n"],
        ..NOTHING
    },
];

const EMPTY: Case<'static> = Case {
    command: "play t.dat",
    game: File::Bytes(b""),
    status: 4,
    said: &["t.dat: no number at 0\n"],
    ..NOTHING
};

const NO_DATABASES: [Case<'static>; 7] = [
    EMPTY,
    Case {
        command: "check t.dat",
        ..EMPTY
    },
    Case {
        game: File::Bytes(b" -"),
        said: &["t.dat: no number at 1\n"],
        ..EMPTY
    },
    Case {
        game: File::Bytes(b"2147483648"),
        said: &["t.dat: number too large at 0\n"],
        ..EMPTY
    },
    Case {
        game: File::Bytes(b"0 0 0 0 255"),
        said: &["t.dat: highest room is 255\n"],
        ..EMPTY
    },
    Case {
        game: File::Bytes(b"0 0 0 0 2 5 3"),
        said: &["t.dat: start room 3 is not there\n"],
        ..EMPTY
    },
    Case {
        command: "check t.dat",
        game: File::Bytes(b"0 0 0 0 0 5 0 0 3 -2"),
        said: &["t.dat: light time is -2\n"],
        ..EMPTY
    },
];

const DRAWN: Case<'static> = Case {
    command: "play t.dat draws=d.txt",
    game: File::Of(T),
    status: 5,
    ..NOTHING
};

const NO_DRAWS: [Case<'static>; 5] = [
    Case {
        status: 2,
        said: &["cannot read d.txt\n"],
        ..DRAWN
    },
    Case {
        draws: Some(b"0"),
        said: &["d.txt: not a draw at 0\n"],
        ..DRAWN
    },
    Case {
        draws: Some(b"5 101"),
        said: &["d.txt: not a draw at 2\n"],
        ..DRAWN
    },
    // The files are loaded before one is read, and the game is read before the draws.
    Case {
        game: File::Bytes(b""),
        status: 2,
        said: &["cannot read d.txt\n"],
        ..DRAWN
    },
    Case {
        game: File::Bytes(b""),
        draws: Some(b"0"),
        status: 4,
        said: &["t.dat: no number at 0\n"],
        ..DRAWN
    },
];

// The files themselves are stored by the first two calls of the shelf.
const FAILING_SHELF: Case<'static> = Case {
    draws: Some(b"1"),
    status: 2,
    ..DRAWN
};

const FAILING_SHELVES: [Case<'static>; 3] = [
    Case {
        failing_loads: &[3],
        said: &["cannot read t.dat\n"],
        ..FAILING_SHELF
    },
    Case {
        failing_loads: &[4],
        said: &["cannot read d.txt\n"],
        ..FAILING_SHELF
    },
    Case {
        failing_loads: &[5],
        status: 0,
        said: &[HALL, ASK],
        ..FAILING_SHELF
    },
];

/// Refusals.
pub const ALL: [&[Case<'static>]; 5] = [
    &NO_REQUESTS,
    &ABSENT,
    &NO_DATABASES,
    &NO_DRAWS,
    &FAILING_SHELVES,
];
