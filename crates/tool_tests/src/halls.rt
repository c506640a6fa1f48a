//! Halls that were worked out by hand.
use crate::games::{Game, T};
use crate::plays::{ASK, HALL, HILL, MOVED};
use crate::refusals::USAGE;
use crate::trying::{Case, File, NOTHING};

const ONE: &str = "[1]\n";

const TWO: &str = "[2]\n";

const END: &str = "\n";

const NOBODY: &str = "No such session.\n";

/// Two sessions, a word that isn't known, and a session that isn't there.
pub const TWO_SESSIONS: Case<'static> = Case {
    command: "hall t.dat 2",
    game: File::Of(T),
    lines: &[b"1 n", b"2 go south", b"1 xyzzy", b"3 n"],
    said: &[
        ONE,
        HALL,
        ASK,
        MOVED,
        HILL,
        ASK,
        END,
        TWO,
        HALL,
        ASK,
        "I can't go in that direction. ",
        ASK,
        END,
        ONE,
        "\"xyzzy\" is a word I don't know. ",
        ASK,
        END,
        NOBODY,
    ],
    ..NOTHING
};

/// The game of the first session is over, and the second one is given a blank line.
pub const OVER: Case<'static> = Case {
    command: "hall t.dat 2",
    game: File::Of(Game {
        actions: &["450 0 0 0 0 0 9450 0"],
        ..T
    }),
    lines: &[b"1 look", b"1 n", b"2"],
    said: &[
        ONE,
        HALL,
        ASK,
        "The game is now over.\n",
        END,
        ONE,
        END,
        TWO,
        HALL,
        ASK,
        ASK,
        END,
    ],
    ..NOTHING
};

// Lines that name no session, and the numbers of a hall with the most.
const NAMES: [Case<'static>; 3] = [
    Case {
        lines: &[b"", b"01 n", b"0 n", b"n", b"12", b"-1"],
        said: &[NOBODY, NOBODY, NOBODY, NOBODY, NOBODY, NOBODY],
        ..TWO_SESSIONS
    },
    Case {
        command: "hall t.dat 0064",
        lines: &[b"  64  n", b"65 n"],
        said: &["[64]\n", HALL, ASK, MOVED, HILL, ASK, END, NOBODY],
        ..TWO_SESSIONS
    },
    Case {
        lines: &[],
        said: &[],
        ..TWO_SESSIONS
    },
];

const REFUSED: [Case<'static>; 4] = [
    Case {
        game: File::Absent,
        status: 2,
        said: &["cannot read t.dat\n"],
        ..TWO_SESSIONS
    },
    Case {
        game: File::Bytes(b"x"),
        status: 4,
        said: &["t.dat: no number at 0\n"],
        ..TWO_SESSIONS
    },
    Case {
        command: "hall t.dat 2 3",
        status: 1,
        said: &[USAGE],
        ..TWO_SESSIONS
    },
    Case {
        failing_calls: &[1],
        status: 3,
        said: &[],
        ..TWO_SESSIONS
    },
];

/// Halls.
pub const ALL: [&[Case<'static>]; 3] = [&[TWO_SESSIONS, OVER], &NAMES, &REFUSED];
