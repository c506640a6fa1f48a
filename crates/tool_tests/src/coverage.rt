//! Plays of which it is told what was tried, and runs of which it is told what they entered, worked
//! out by hand.
use crate::games::{Game, T};
use crate::plays::{ASK, CHOOSING, HALL, HILL, MOVED};
use crate::refusals::USAGE;
use crate::trying::{Case, File, NOTHING, Translated};

const NONE_TRIED: &str = "\nlines run: 0\n";

const WALKED: Case<'static> = Case {
    command: "cover t.dat",
    game: File::Of(T),
    lines: &[b"n"],
    said: &[HALL, ASK, MOVED, HILL, ASK, NONE_TRIED],
    ..NOTHING
};

pub const CHOSEN: Case<'static> = Case {
    command: "cover t.dat draws=d.txt",
    game: File::Of(CHOOSING),
    draws: Some(b"2 100 100"),
    said: &[
        HALL,
        "two\nfour\nthree\n",
        ASK,
        "\nline 2: 1\nline 3: 1\nline 4: 1\nlines run: 3\n",
    ],
    ..NOTHING
};

// A head that fails and one that passes, each of which is tried as often as its verb is typed, and
// a tail that is tried where its head goes on.
const TRIED: Game<'static> = Game {
    actions: &[
        "450 21 0 0 0 0 150 0",
        "450 0 0 0 0 0 10950 0",
        "0 21 0 0 0 0 150 0",
        "0 0 0 0 0 0 0 0",
        "600 0 0 0 0 0 150 0",
    ],
    ..T
};

const LOOKED: Case<'static> = Case {
    game: File::Of(TRIED),
    lines: &[b"look", b"look"],
    said: &[
        HALL,
        ASK,
        ASK,
        ASK,
        "\nline 0: 2\nline 1: 2\nline 2: 2\nlines run: 3\n",
    ],
    ..WALKED
};

const IN_STYLE: Case<'static> = Case {
    command: "cover t.dat style=y seed=7",
    said: &[
        "You are in a hall\nObvious exits: North.\n\nYou can also see: Rug\n",
        ASK,
        MOVED,
        HILL,
        ASK,
        NONE_TRIED,
    ],
    ..WALKED
};

// Each line is counted where it is tried, passing or not; one of zeros does nothing.
const COVERED: [Case<'static>; 6] = [
    WALKED,
    CHOSEN,
    Case {
        draws: Some(b"1 100"),
        said: &[
            HALL,
            "one\ntwo\nfour\n",
            "\nline 1: 1\nline 2: 1\nline 3: 1\nlines run: 3\n",
        ],
        ..CHOSEN
    },
    LOOKED,
    IN_STYLE,
    Case {
        game: File::Bytes(b"x"),
        status: 4,
        said: &["t.dat: no number at 0\n"],
        ..WALKED
    },
];

const NO_REQUESTS: [Case<'static>; 3] = [
    Case {
        command: "cover",
        status: 1,
        said: &[USAGE],
        ..WALKED
    },
    Case {
        command: "cover t.dat save=p.pos",
        status: 1,
        said: &[USAGE],
        ..WALKED
    },
    Case {
        command: "cover t.dat steps=5",
        status: 1,
        said: &[USAGE],
        ..WALKED
    },
];

/// Plays of which it is told what was tried.
pub const ALL: [&[Case<'static>]; 2] = [&COVERED, &NO_REQUESTS];

// A routine whose name isn't that of a line is none, and one whose body is empty isn't entered.
pub const CALLED: Case<'static> = Case {
    command: "calls g.inf",
    program: File::Bytes(
        b"[ line_1; print \"x\"; ]; [ line_01; print \"y\"; ]; [ line_2; ]; [ Line_4999; rtrue; ];\
[ line_5000; rtrue; ]; [ Main; line_1(); line_01(); line_2(); line_1(); line_4999(); line_5000(); ];",
    ),
    said: &["xyx\nline 1: 2\nline 4999: 1\nlines run: 2\n"],
    ..NOTHING
};

// A run that ends otherwise has its line and no report.
const CALLS: [Case<'static>; 8] = [
    CALLED,
    Case {
        program: File::Bytes(b"[ line_1; print 1/0; ]; [ Main; line_1(); ];"),
        status: 8,
        said: &["[Trap: division in line_1]\n"],
        ..CALLED
    },
    Case {
        command: "calls g.inf steps=5",
        status: 10,
        said: &["x[Steps spent.]\n"],
        ..CALLED
    },
    Case {
        program: File::Bytes(b"[ Main; quit; ];"),
        said: &["\nlines run: 0\n"],
        ..CALLED
    },
    Case {
        program: File::Bytes(b"[ Main; print random(100); ];"),
        command: "calls g.inf draws=d.txt",
        draws: Some(b""),
        said: &["\nlines run: 0\n"],
        ..CALLED
    },
    Case {
        program: File::Bytes(b"[ F; ];"),
        status: 6,
        said: &["g.inf: main is missing\n"],
        ..CALLED
    },
    Case {
        command: "calls g.inf style=y",
        status: 1,
        said: &[USAGE],
        ..CALLED
    },
    Case {
        command: "calls",
        status: 1,
        said: &[USAGE],
        ..CALLED
    },
];

/// Runs of which it is told what they entered.
pub const ALL_CALLS: [&[Case<'static>]; 1] = [&CALLS];

/// A game tries what its program enters.
pub const ALIKE: &[Translated<'static>] = &[
    Translated {
        translate: "translate t.dat g.inf",
        run: "calls g.inf",
        play: WALKED,
    },
    Translated {
        translate: "translate t.dat g.inf",
        run: "calls g.inf draws=d.txt",
        play: CHOSEN,
    },
    Translated {
        translate: "translate t.dat g.inf words=32",
        run: "calls g.inf words=32",
        play: LOOKED,
    },
    Translated {
        translate: "translate t.dat g.inf style=y",
        run: "calls g.inf seed=7",
        play: IN_STYLE,
    },
];
