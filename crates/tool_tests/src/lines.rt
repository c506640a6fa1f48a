//! Plays of games whose lines are near a rule, worked out by hand.
use crate::games::{Game, T};
use crate::plays::{ASK, HALL, WALK};
use crate::trying::{Case, File};

const EMPTY_HALL: &str = "I'm in a hall\nObvious exits: North.\n";

const FULL: &str = "I've too much to carry! ";

const LOOK: Case<'static> = Case {
    lines: &[b"look"],
    ..WALK
};

// ---- conditions

// A head that goes on, and after it a line for each condition, which says its letter: first of the
// item, room, flag or number 0, then of 7, which no item and no room has.
const CONDITIONS: Game<'static> = Game {
    actions: &[
        "450 0 0 0 0 0 10950 0",
        "0 1 0 0 0 0 150 0",
        "0 2 0 0 0 0 300 0",
        "0 3 0 0 0 0 450 0",
        "0 4 0 0 0 0 600 0",
        "0 5 0 0 0 0 750 0",
        "0 6 0 0 0 0 900 0",
        "0 7 0 0 0 0 1050 0",
        "0 8 0 0 0 0 1200 0",
        "0 9 0 0 0 0 1350 0",
        "0 10 0 0 0 0 1500 0",
        "0 11 0 0 0 0 1650 0",
        "0 12 0 0 0 0 1800 0",
        "0 13 0 0 0 0 1950 0",
        "0 14 0 0 0 0 2100 0",
        "0 15 0 0 0 0 2250 0",
        "0 16 0 0 0 0 2400 0",
        "0 17 0 0 0 0 2550 0",
        "0 18 0 0 0 0 2700 0",
        "0 19 0 0 0 0 2850 0",
        "0 0 0 0 0 0 12900 0",
        "0 141 0 0 0 0 150 0",
        "0 142 0 0 0 0 300 0",
        "0 143 0 0 0 0 450 0",
        "0 144 0 0 0 0 600 0",
        "0 145 0 0 0 0 750 0",
        "0 146 0 0 0 0 900 0",
        "0 147 0 0 0 0 1050 0",
        "0 152 0 0 0 0 1800 0",
        "0 153 0 0 0 0 1950 0",
        "0 154 0 0 0 0 2100 0",
        "0 155 0 0 0 0 2250 0",
        "0 156 0 0 0 0 2400 0",
        "0 157 0 0 0 0 2550 0",
        "0 158 0 0 0 0 2700 0",
        "0 159 0 0 0 0 2850 0",
    ],
    messages: &[
        "\"\"", "\"a\"", "\"b\"", "\"c\"", "\"d\"", "\"e\"", "\"f\"", "\"g\"", "\"h\"", "\"i\"",
        "\"j\"", "\"k\"", "\"l\"", "\"m\"", "\"n\"", "\"o\"", "\"p\"", "\"q\"", "\"r\"", "\"s\"",
    ],
    ..T
};

// Flags 31, 32 and 32,767 are clear, and 31 can be set; the argument 107,374,182 is the highest.
const FLAGS: Game<'static> = Game {
    actions: &[
        "450 620 640 0 0 0 8758 10950",
        "0 628 0 0 0 0 150 0",
        "0 629 0 0 0 0 300 0",
        "0 648 0 0 0 0 450 0",
        "0 649 0 0 0 0 600 0",
        "0 655348 0 0 0 0 750 0",
        "0 655349 0 0 0 0 900 0",
    ],
    messages: &["\"\"", "\"a\"", "\"b\"", "\"c\"", "\"d\"", "\"e\"", "\"f\""],
    ..T
};

const TESTED: [Case<'static>; 2] = [
    Case {
        game: File::Of(CONDITIONS),
        said: &[
            HALL,
            ASK,
            "b\nc\nf\ng\ni\nk\nm\no\nq\ns\n",
            "\n",
            "e\nf\ng\nl\nn\no\nq\n",
            ASK,
        ],
        ..LOOK
    },
    Case {
        game: File::Of(FLAGS),
        said: &[HALL, ASK, "a\nd\nf\n", ASK],
        ..LOOK
    },
];

// ---- gets that something follows

const GETS: Game<'static> = Game {
    carry: 1,
    actions: &["450 0 20 0 0 0 7852 7950"],
    items: &["\"Rug\" 1", "\"Pin\" 255"],
    ..T
};

// Two gets and a drop: both gets are refused, or the second one alone, or none, and the last game
// drops what it has.
const GOT: [Case<'static>; 3] = [
    Case {
        game: File::Of(GETS),
        said: &[HALL, ASK, FULL, FULL, HALL, ASK],
        ..LOOK
    },
    Case {
        game: File::Of(Game { carry: 2, ..GETS }),
        said: &[
            HALL,
            ASK,
            FULL,
            "I'm in a hall\nObvious exits: North.\n\nI can also see: Pin\n",
            ASK,
        ],
        ..LOOK
    },
    Case {
        game: File::Of(Game {
            carry: 3,
            actions: &["450 0 20 20 0 0 7852 8016"],
            ..GETS
        }),
        said: &[
            HALL,
            ASK,
            "I'm carrying:\nRug.\n",
            "I'm in a hall\nObvious exits: North.\n\nI can also see: Pin\n",
            ASK,
        ],
        ..LOOK
    },
];

// ---- the counter

// Lines that set it, add or subtract, and say it.
const COUNTER: Game<'static> = Game {
    actions: &[
        "450 0 0 0 0 0 10950 0",
        "0 655320 20 0 0 0 11932 11786",
        "0 655340 655340 0 0 0 11932 11786",
        "0 40 655320 0 0 0 11932 11786",
        "0 20 655320 0 0 0 11932 11786",
        "0 100 140 0 0 0 11932 11786",
        "0 100 655340 0 0 0 11933 11786",
        "0 100 100 0 0 0 11933 11786",
        "0 100 120 0 0 0 11933 11786",
        "0 0 0 0 0 0 11628 12900",
        "0 20 0 0 0 0 12378 12900",
        "0 0 20 0 0 0 12228 12900",
    ],
    ..T
};

const COUNTED: [Case<'static>; 1] = [Case {
    game: File::Of(COUNTER),
    said: &[
        HALL,
        ASK,
        "32767\n32767\n32767\n32767\n12\n-1\n0\n-1\n",
        "-1\n0\n0\n",
        ASK,
    ],
    ..LOOK
}];

// ---- the noun that was typed

// In the automatic step it is empty, whatever was typed before.
const NOUNS: Game<'static> = Game {
    actions: &["100 0 0 0 0 0 12685 0", "450 0 0 0 0 0 12686 12750"],
    ..T
};

const SPOKEN: [Case<'static>; 1] = [Case {
    game: File::Of(NOUNS),
    lines: &[b"look ~\"^@\\", b"look", b"LOOK Don't! stop"],
    said: &[
        HALL,
        "\n",
        ASK,
        "~\"^@\\\n~\"^@\\\n",
        "\n",
        ASK,
        "\n\n",
        "\n",
        ASK,
        "don't!\ndon't!\n",
        "\n",
        ASK,
    ],
    ..WALK
}];

// ---- heads and tails

// A line that fails doesn't stop a tail, nor does one of zeros or one with 73; a head that passes
// without 73 has no tail; where a head fails its tail isn't tried, and the next head is.
const TAILS: Game<'static> = Game {
    actions: &[
        "451 1 0 0 0 0 10951 0",
        "0 0 0 0 0 0 150 0",
        "450 0 0 0 0 0 373 0",
        "0 1 0 0 0 0 150 0",
        "0 0 0 0 0 0 0 0",
        "0 0 0 0 0 0 523 0",
        "0 0 0 0 0 0 600 0",
        "450 0 0 0 0 0 150 0",
        "452 0 0 0 0 0 150 0",
        "0 0 0 0 0 0 300 0",
    ],
    messages: &["\"\"", "\"one\"", "\"two\"", "\"three\"", "\"four\""],
    ..T
};

// An ending in a tail stops everything.
const ENDING_TAIL: Game<'static> = Game {
    actions: &[
        "450 0 0 0 0 0 223 0",
        "0 0 0 0 0 0 9451 0",
        "0 0 0 0 0 0 150 0",
    ],
    messages: &["\"\"", "\"one\""],
    ..T
};

const TAILED: [Case<'static>; 2] = [
    Case {
        game: File::Of(TAILS),
        lines: &[b"look north", b"look south", b"look"],
        said: &[
            HALL,
            ASK,
            "two\nthree\nfour\n",
            ASK,
            "two\nthree\nfour\n",
            ASK,
            "two\nthree\nfour\n",
            ASK,
        ],
        ..WALK
    },
    Case {
        game: File::Of(ENDING_TAIL),
        said: &[HALL, ASK, "one\nThe game is now over.\n"],
        ..LOOK
    },
];

// ---- chances

const HALVES: Game<'static> = Game {
    actions: &[
        "50 0 0 0 0 0 150 0",
        "50 0 0 0 0 0 300 0",
        "99 1 0 0 0 0 450 0",
        "100 0 0 0 0 0 600 0",
        "149 0 0 0 0 0 750 0",
    ],
    messages: &[
        "\"\"",
        "\"one\"",
        "\"two\"",
        "\"three\"",
        "\"four\"",
        "\"five\"",
    ],
    ..T
};

// Draws of 50 and of 51 for a chance of 50; a head that fails has its draw.
const CHANCES: [Case<'static>; 1] = [Case {
    command: "play t.dat draws=d.txt",
    game: File::Of(HALVES),
    draws: Some(b"50 51 1 100 100 51 50 100 100"),
    lines: &[b"go", b"look"],
    said: &[
        HALL,
        "one\nfour\nfive\n",
        ASK,
        "Give me a direction too. ",
        "two\nfour\n",
    ],
    ..WALK
}];

// ---- other opcodes

// A place is the low 8 bits of a parameter; an item is carried, the inventory, no saving; death;
// the saved room; a room that isn't there and one that is; messages that aren't there and one that
// is.
const OTHERS: Game<'static> = Game {
    actions: &[
        "451 0 5160 0 0 0 9300 0",
        "452 0 0 0 0 0 11166 10650",
        "453 0 0 0 0 0 9150 0",
        "454 0 0 0 0 0 12000 0",
        "455 60 20 0 0 0 8154 0",
        "456 0 0 0 0 0 15401 15001",
    ],
    messages: &["\"\"", "\"one\""],
    ..T
};

const DONE: [Case<'static>; 1] = [Case {
    game: File::Of(OTHERS),
    lines: &[
        b"look north",
        b"look south",
        b"look east",
        b"look west",
        b"look up",
        b"look down",
    ],
    said: &[
        HALL,
        ASK,
        EMPTY_HALL,
        ASK,
        "I'm carrying:\nRug.\n[Saving is left out.]\n",
        ASK,
        "I am dead.\nI'm on a hill\nObvious exits: South.\n",
        ASK,
        "I'm in a \nObvious exits: none.\n",
        ASK,
        EMPTY_HALL,
        ASK,
        "one\n",
        ASK,
    ],
    ..WALK
}];

/// Conditions, gets, the counter, nouns, tails, chances and other opcodes.
pub const ALL: [&[Case<'static>]; 7] = [&TESTED, &GOT, &COUNTED, &SPOKEN, &TAILED, &CHANCES, &DONE];
