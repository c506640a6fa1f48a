//! Games that are translated and run, and databases that aren't translated, with what is said of
//! them.
use crate::games::{Game, T};
use crate::plays::{
    ALL_STYLES, ASK, BLANK_LINE, DRAWS, ENDINGS, GET_ALL, HALL, LIGHTS, LINES,
    NO as NOT_UNDERSTOOD, ODD_MESSAGE, REFUSED_GET, SPOKEN_TO, VANISHED, WALK,
};
use crate::refusals::USAGE;
use crate::trying::{Case, File, NOTHING, Translated};

// Nothing is stored.
const REFUSED: Case<'static> = Case {
    command: "translate t.dat t.inf",
    game: File::Of(T),
    after: &[("t.inf", File::Absent), ("t.dat", File::Of(T))],
    ..NOTHING
};

const LONG_LIGHT: Game<'static> = Game { light: 40_000, ..T };

const TOO_WIDE: Case<'static> = Case {
    game: File::Of(LONG_LIGHT),
    status: 7,
    said: &["t.dat: light is 40000, outside 16 bits\n"],
    after: &[("t.inf", File::Absent), ("t.dat", File::Of(LONG_LIGHT))],
    ..REFUSED
};

const MANY_TREASURES: Game<'static> = Game {
    treasures: 32_768,
    home: 70_000,
    ..LONG_LIGHT
};

const FAR_HOME: Game<'static> = Game { home: 70_000, ..T };

const WIDE_NUMBERS: [Case<'static>; 8] = [
    TOO_WIDE,
    Case {
        command: "translate t.dat t.inf words=16 style=yc",
        ..TOO_WIDE
    },
    Case {
        command: "translate t.dat t.inf style=v words=16",
        ..TOO_WIDE
    },
    Case {
        game: File::Of(MANY_TREASURES),
        said: &["t.dat: treasures is 32768, outside 16 bits\n"],
        after: &[("t.inf", File::Absent), ("t.dat", File::Of(MANY_TREASURES))],
        ..TOO_WIDE
    },
    Case {
        game: File::Of(FAR_HOME),
        said: &["t.dat: treasure room is 70000, outside 16 bits\n"],
        after: &[("t.inf", File::Absent), ("t.dat", File::Of(FAR_HOME))],
        ..TOO_WIDE
    },
    Case {
        game: File::Of(FAR_VERB),
        said: &["t.dat: line 0 verb is 32770, outside 16 bits\n"],
        after: &[("t.inf", File::Absent)],
        ..TOO_WIDE
    },
    Case {
        game: File::Of(Game {
            actions: &["0 0 0 0 0 0 0 0", "450 0 655360 0 0 0 0 0"],
            ..T
        }),
        said: &["t.dat: line 1 condition 2 is 32768, outside 16 bits\n"],
        after: &[("t.inf", File::Absent)],
        ..TOO_WIDE
    },
    Case {
        game: File::Of(Game {
            actions: &["450 0 0 0 0 0 0 4915350"],
            ..T
        }),
        said: &["t.dat: line 0 opcode 3 is 32769, outside 16 bits\n"],
        after: &[("t.inf", File::Absent)],
        ..TOO_WIDE
    },
];

// The database is overwritten only where there is a program.
const OVERWRITTEN: [Case<'static>; 1] = [Case {
    command: "translate t.dat t.dat",
    after: &[("t.dat", File::Of(LONG_LIGHT))],
    ..TOO_WIDE
}];

const NO_GAMES: [Case<'static>; 3] = [
    // The database is stored by the first call of the shelf, and loaded by the second one.
    Case {
        failing_loads: &[3],
        status: 2,
        said: &["cannot write t.inf\n"],
        ..REFUSED
    },
    Case {
        game: File::Bytes(b"0 0 0 0 255"),
        status: 4,
        said: &["t.dat: highest room is 255\n"],
        after: &[("t.inf", File::Absent)],
        ..REFUSED
    },
    Case {
        game: File::Absent,
        status: 2,
        said: &["cannot read t.dat\n"],
        after: &[("t.inf", File::Absent)],
        ..REFUSED
    },
];

const UNASKED: Case<'static> = Case {
    game: File::Of(LONG_LIGHT),
    status: 1,
    said: &[USAGE],
    after: &[("t.inf", File::Absent)],
    ..REFUSED
};

const NO_REQUESTS: [Case<'static>; 8] = [
    Case {
        command: "translate",
        ..UNASKED
    },
    Case {
        command: "translate t.dat",
        ..UNASKED
    },
    Case {
        command: "translate t.dat t.inf words=64",
        ..UNASKED
    },
    Case {
        command: "translate t.dat t.inf style=vc",
        ..UNASKED
    },
    Case {
        command: "translate t.dat t.inf words=16 words=32",
        ..UNASKED
    },
    Case {
        command: "translate t.dat t.inf style=y style=y",
        ..UNASKED
    },
    Case {
        command: "translate t.dat t.inf seed=1",
        ..UNASKED
    },
    Case {
        command: "translate t.dat t.inf steps=5",
        ..UNASKED
    },
];

// ---- games that are translated

const STORED: Translated<'static> = Translated {
    translate: "translate t.dat g.inf",
    run: "run g.inf",
    play: WALK,
};

const LONG_WALK: Case<'static> = Case {
    game: File::Of(LONG_LIGHT),
    ..WALK
};

/// Plays whose games are translated, in styles and at both widths.
pub const PLAYED: &[Translated<'static>] = &[
    STORED,
    Translated {
        play: BLANK_LINE,
        ..STORED
    },
    Translated {
        translate: "translate t.dat g.inf words=32",
        run: "run g.inf words=32",
        play: LONG_WALK,
    },
    Translated {
        play: Case {
            game: File::Of(Game { light: 32_767, ..T }),
            ..WALK
        },
        ..STORED
    },
    Translated {
        translate: "translate t.dat g.inf style=y",
        play: SPOKEN_TO,
        ..STORED
    },
    Translated {
        translate: "translate t.dat g.inf words=32 style=cv",
        run: "run g.inf words=32",
        play: VANISHED,
    },
    Translated {
        translate: "translate t.dat g.inf style=ycv words=16",
        play: ALL_STYLES,
        ..STORED
    },
    Translated {
        play: GET_ALL,
        ..STORED
    },
];

/// Plays whose games are translated as they are, in the plain style for words of 16 bits, and run
/// with the draws of the play, if there are any.
pub const PLAIN: [&[Case<'static>]; 4] = [&LINES, &DRAWS, &ENDINGS, &LIGHTS];

// A width that is wide enough for each number of a line.
const FAR_VERB: Game<'static> = Game {
    actions: &[
        "4915500 20000000 0 0 0 0 9000 0",
        "450 655340 700000 0 0 0 11932 11786",
    ],
    ..T
};

/// Games with numbers of lines that are no words of 16 bits, at 32 bits.
pub const WIDE_LINES: &[Translated<'static>] = &[Translated {
    translate: "translate t.dat g.inf words=32",
    run: "run g.inf words=32",
    play: Case {
        game: File::Of(FAR_VERB),
        lines: &[b"look"],
        said: &[HALL, ASK, "32767\n", ASK],
        ..WALK
    },
}];

const LOOKED: Case<'static> = Case {
    lines: &[b"look"],
    said: &[HALL, ASK, NOT_UNDERSTOOD, ASK],
    ..WALK
};

/// A game with one line of a verb, and one with 400: a look in both.
pub const OF_A_VERB: [Translated<'static>; 2] = [
    Translated {
        play: Case {
            game: File::Of(Game {
                actions: &["750 0 0 0 0 0 0 0"],
                ..T
            }),
            ..LOOKED
        },
        ..STORED
    },
    Translated {
        play: Case {
            game: File::Of(Game {
                actions: &["750 0 0 0 0 0 0 0"; 400],
                ..T
            }),
            ..LOOKED
        },
        ..STORED
    },
];

/// A get that something follows: what follows stands in two branches.
pub const BRANCHES: Translated<'static> = Translated {
    play: REFUSED_GET,
    ..STORED
};

/// A message of characters that Inform writes otherwise.
pub const STRINGS: Translated<'static> = Translated {
    play: ODD_MESSAGE,
    ..STORED
};

/// A game with one entry in each list.
pub const CELL: Translated<'static> = Translated {
    play: Case {
        game: File::Bytes(
            b"0 0 0 0 0 5 0 0 3 -1 0 0\n0 0 0 0 0 0 0 0\n\"AUT\" \"ANY\"\n0 0 0 0 0 0 \"cell\"\n\
              \"\"\n\"Rug\" 0\n\"\"\n1 1 1\n",
        ),
        lines: &[b"n"],
        said: &[
            "I'm in a cell\nObvious exits: none.\n\nI can also see: Rug\n",
            ASK,
            "\"n\" is a word I don't know. ",
            ASK,
        ],
        ..WALK
    },
    ..STORED
};

/// Cases of `translate` that are refused.
pub const ALL: [&[Case<'static>]; 4] = [&WIDE_NUMBERS, &OVERWRITTEN, &NO_GAMES, &NO_REQUESTS];
