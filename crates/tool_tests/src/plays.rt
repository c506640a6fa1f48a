//! Plays and reports that were worked out by hand.
use crate::games::{Game, T};
use crate::trying::{Case, File, NOTHING};

pub const HALL: &str = "I'm in a hall\nObvious exits: North.\n\nI can also see: Rug\n";

pub const HILL: &str = "I'm on a hill\nObvious exits: South.\n";

pub const ASK: &str = "\nTell me what to do ? ";

pub const MOVED: &str = "O.K.\n";

/// No head is for the command.
pub const NO: &str = "I don't understand your command. ";

const OUT: &str = "Your light has run out. ";

/// From the hall to the hill and back, and a word that isn't known.
pub const WALK: Case<'static> = Case {
    command: "play t.dat",
    game: File::Of(T),
    lines: &[b"n", b"go south", b"xyzzy"],
    said: &[
        HALL,
        ASK,
        MOVED,
        HILL,
        ASK,
        MOVED,
        HALL,
        ASK,
        "\"xyzzy\" is a word I don't know. ",
        ASK,
    ],
    ..NOTHING
};

// There and back, in games whose numbers are at their limits.
const THERE_AND_BACK: Case<'static> = Case {
    lines: &[b"n", b"go south"],
    said: &[HALL, ASK, MOVED, HILL, ASK, MOVED, HALL, ASK],
    ..WALK
};

const SEEDED: [Case<'static>; 4] = [
    Case {
        command: "play t.dat seed=1",
        ..WALK
    },
    Case {
        command: "play t.dat seed=0001",
        ..WALK
    },
    Case {
        game: File::Of(Game { light: 40_000, ..T }),
        ..THERE_AND_BACK
    },
    Case {
        game: File::Of(Game { rooms: 255, ..T }),
        ..THERE_AND_BACK
    },
];

/// A command in capitals and small letters, and a line without a command.
pub const BLANK_LINE: Case<'static> = Case {
    lines: &[b"WALK North", b""],
    said: &[HALL, ASK, MOVED, HILL, ASK, ASK],
    ..WALK
};

// ---- lines of the game

/// A get that is refused leaves its parameter, so that the drop after it takes the rug.
pub const REFUSED_GET: Case<'static> = Case {
    game: File::Of(Game {
        carry: 1,
        actions: &["450 0 20 0 0 0 7853 0"],
        items: &["\"Rug\" 1", "\"Pin\" 255"],
        ..T
    }),
    lines: &[b"look"],
    said: &[HALL, ASK, "I've too much to carry! ", HALL, ASK],
    ..WALK
};

// A counter is set to 32,767, and one more is added to it.
const COUNTED: Case<'static> = Case {
    game: File::Of(Game {
        actions: &["450 655340 20 0 0 0 11932 11786"],
        ..T
    }),
    lines: &[b"look"],
    said: &[HALL, ASK, "32767\n", ASK],
    ..WALK
};

/// A message of characters that Inform writes otherwise.
pub const ODD_MESSAGE: Case<'static> = Case {
    game: File::Of(Game {
        actions: &["450 0 0 0 0 0 150 0"],
        messages: &["\"\"", "\"@5 ~ ^ \\\""],
        ..T
    }),
    lines: &[b"look"],
    said: &[HALL, ASK, "@5 ~ ^ \\\n", ASK],
    ..WALK
};

/// Lines that a command finds.
pub const LINES: [Case<'static>; 3] = [REFUSED_GET, COUNTED, ODD_MESSAGE];

/// Draws that choose among automatic groups.
pub const CHOOSING: Game<'static> = Game {
    actions: &[
        "0 0 0 0 0 0 600 0",
        "1 0 0 0 0 0 150 0",
        "100 0 0 0 0 0 373 0",
        "0 0 0 0 0 0 600 0",
        "149 0 0 0 0 0 450 0",
    ],
    messages: &["\"\"", "\"one\"", "\"two\"", "\"three\"", "\"four\""],
    ..T
};

const CHOSEN: Case<'static> = Case {
    command: "play t.dat draws=d.txt",
    game: File::Of(CHOOSING),
    draws: Some(b"2 100 100"),
    said: &[HALL, "two\nfour\nthree\n", ASK],
    ..NOTHING
};

/// Automatic groups, with draws for all of them and for some.
pub const DRAWS: [Case<'static>; 3] = [
    CHOSEN,
    Case {
        draws: Some(b"1 100 100"),
        said: &[HALL, "one\ntwo\nfour\nthree\n", ASK],
        ..CHOSEN
    },
    Case {
        draws: Some(b"1 100"),
        said: &[HALL, "one\ntwo\nfour\n"],
        ..CHOSEN
    },
];

const SCORING: Game<'static> = Game {
    actions: &["450 0 0 0 0 0 9750 0"],
    ..T
};

const DROPPING: Game<'static> = Game {
    actions: &["450 9 9 9 9 9 7950 0"],
    ..T
};

const LOOK: Case<'static> = Case {
    lines: &[b"look"],
    ..WALK
};

/// Scores, and a line whose opcode has a parameter left.
pub const ENDINGS: [Case<'static>; 3] = [
    Case {
        game: File::Of(SCORING),
        said: &[
            HALL,
            ASK,
            "I've stored 0 treasures.  On a scale of 0 to 100, that rates 0.\n",
            ASK,
        ],
        ..LOOK
    },
    Case {
        game: File::Of(Game {
            treasures: 1,
            home: 1,
            items: &["\"*Rug*\" 1"],
            ..SCORING
        }),
        said: &[
            "I'm in a hall\nObvious exits: North.\n\nI can also see: *Rug*\n",
            ASK,
            "I've stored 1 treasures.  On a scale of 0 to 100, that rates 100.\n",
            "Well done.\nThe game is now over.\n",
        ],
        ..LOOK
    },
    Case {
        game: File::Of(DROPPING),
        said: &[HALL, ASK, HALL, ASK],
        ..LOOK
    },
];

// Item 9 is a light.
const LIT: Game<'static> = Game {
    light: 2,
    items: &[
        "\"Rug\" 1",
        "\"x\" 0",
        "\"x\" 0",
        "\"x\" 0",
        "\"x\" 0",
        "\"x\" 0",
        "\"x\" 0",
        "\"x\" 0",
        "\"x\" 0",
        "\"Lamp\" 255",
    ],
    ..T
};

/// A light that goes out.
pub const RUN_OUT: Case<'static> = Case {
    game: File::Of(LIT),
    lines: &[b"look", b"look", b"look", b"look"],
    said: &[HALL, ASK, NO, ASK, NO, OUT, ASK, NO, OUT, ASK, NO, ASK],
    ..LOOK
};

/// Lights that go out and grow dim, and moves in the dark.
pub const LIGHTS: [Case<'static>; 3] = [
    RUN_OUT,
    Case {
        game: File::Of(Game { light: 21, ..LIT }),
        said: &[HALL, ASK, NO, "Your light is growing dim. ", ASK],
        ..LOOK
    },
    Case {
        command: "play t.dat draws=d.txt",
        game: File::Of(Game {
            actions: &["100 0 0 0 0 0 8400 0"],
            ..T
        }),
        draws: Some(b"1 1 1"),
        lines: &[b"n", b"n"],
        said: &[
            HALL,
            ASK,
            "Dangerous to move in the dark! O.K.\nI can't see. It is too dark!\n",
            ASK,
            "Dangerous to move in the dark! I fell down and broke my neck. ",
        ],
        ..NOTHING
    },
];

/// All is taken until the game ends.
pub const GET_ALL: Case<'static> = Case {
    game: File::Of(Game {
        actions: &["1511 0 0 0 0 0 9450 0"],
        more_words: &[
            "\"\" \"\"",
            "\"\" \"\"",
            "\"\" \"\"",
            "\"GET\" \"RUG\"",
            "\"\" \"PIN\"",
            "\"\" \"\"",
            "\"\" \"\"",
            "\"\" \"\"",
            "\"\" \"\"",
            "\"\" \"\"",
            "\"\" \"\"",
            "\"DROP\" \"\"",
        ],
        items: &["\"Rug/RUG/\" 1", "\"Pin/PIN/\" 1"],
        ..T
    }),
    lines: &[b"get all"],
    said: &[
        "I'm in a hall\nObvious exits: North.\n\nI can also see: Rug - Pin\n",
        ASK,
        "Rug: O.K.\nThe game is now over.\n",
    ],
    ..WALK
};

const YOUR_HALL: &str = "You are in a hall\nObvious exits: North.\n\nYou can also see: Rug\n";

const LAST_TURN: &str = "Your light runs out in 1 turns. ";

/// A play in the second person.
pub const SPOKEN_TO: Case<'static> = Case {
    command: "play t.dat style=y",
    lines: &[b"go south"],
    said: &[YOUR_HALL, ASK, "You can't go in that direction. ", ASK],
    ..WALK
};

/// A light that is counted, and vanishes.
pub const VANISHED: Case<'static> = Case {
    command: "play t.dat style=cv",
    game: File::Of(LIT),
    lines: &[b"look", b"look", b"look", b"look"],
    said: &[
        HALL, ASK, NO, LAST_TURN, ASK, NO, OUT, ASK, NO, ASK, NO, ASK,
    ],
    ..WALK
};

/// A play in all styles at once, and with a seed.
pub const ALL_STYLES: Case<'static> = Case {
    command: "play t.dat style=ycv seed=1",
    game: File::Of(LIT),
    lines: &[b"look"],
    said: &[YOUR_HALL, ASK, NO, LAST_TURN, ASK],
    ..WALK
};

const SHORT: &str = "rooms 3, items 1, lines 1, words 7, messages 1\n";

const REPORTS: [Case<'static>; 2] = [
    Case {
        command: "check t.dat",
        game: File::Of(T),
        said: &[SHORT, "warnings 0\n"],
        ..NOTHING
    },
    Case {
        command: "check t.dat",
        game: File::Of(DROPPING),
        said: &[
            SHORT,
            "line 0, opcode 1: no parameter left\n",
            "warnings 1\n",
        ],
        ..NOTHING
    },
];

/// Plays and reports.
pub const ALL: [&[Case<'static>]; 8] = [
    &SEEDED,
    &LINES,
    &DRAWS,
    &ENDINGS,
    &LIGHTS,
    &[SPOKEN_TO, VANISHED, ALL_STYLES],
    &[BLANK_LINE, GET_ALL],
    &REPORTS,
];
