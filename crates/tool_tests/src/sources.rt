//! Sources that are compiled, and databases that are decompiled.
use crate::games::{Game, T};
use crate::trying::{Case, File, NOTHING};

// The plain text of the game T: most carried, the room where it starts, the list up to its items,
// from there to its one line, and what follows that.
const CARRY: &str = "header {
unused 0;
carry 5;
";

const START: &str = "start r1;
";

const LISTS: &str = "treasures 0;
length 3;
light -1;
home 0;
}
words {
\"AUT\" \"ANY\";
\"GO\" \"NORTH\";
\"*WALK\" \"SOUTH\";
\"LOOK\" \"EAST\";
\"\" \"WEST\";
\"\" \"UP\";
\"\" \"DOWN\";
}
rooms {
room r0 \"\": 0, 0, 0, 0, 0, 0;
room r1 \"hall\": r2, 0, 0, 0, 0, 0;
room r2 \"*I'm on a hill\": 0, r1, 0, 0, 0, 0;
}
messages {
message m0 \"\";
}
items {
item i0 \"Rug\": r1;
";

const LINES: &str = "}
lines {
";

const BACK: &str = "
}
trailer {
416 1 0
}
";

const NO_LINE: &str = "also { } { } \"\";";

pub const PLAIN: File<'static> = File::Pieces(&[CARRY, START, LISTS, LINES, NO_LINE, BACK]);

const COMPILED: Case<'static> = Case {
    command: "compile t.adv u.dat",
    source: PLAIN,
    after: &[("u.dat", File::Of(T)), ("t.adv", PLAIN)],
    ..NOTHING
};

// Two things, of which one can be carried, and a line whose parameters are in brackets.
const HANDS: Game<'static> = Game {
    carry: 1,
    actions: &["450 0 20 0 0 0 7853 0"],
    items: &["\"Rug\" 1", "\"Pin\" 255"],
    ..T
};

const HANDS_PLAIN: File<'static> = File::Pieces(&[
    "header {\nunused 0;\ncarry 1;\n",
    START,
    LISTS,
    "item i1 \"Pin\": carried;\n",
    LINES,
    "line 3 0 { } { get(i0); drop(i1); } \"\";",
    BACK,
]);

// A last condition that isn't of code 0, after others that are.
const BARE: Game<'static> = Game {
    actions: &["450 0 20 0 0 1 7853 0"],
    ..T
};

const BARE_PLAIN: File<'static> = File::Pieces(&[
    CARRY,
    START,
    LISTS,
    LINES,
    "line 3 0 { param 0; param 1; param 0; param 0; carried i0; } { get; drop; } \"\";",
    BACK,
]);

const WRITTEN: [Case<'static>; 6] = [
    COMPILED,
    Case {
        command: "decompile t.dat t.adv",
        game: File::Of(T),
        source: File::Absent,
        after: &[("t.dat", File::Of(T)), ("t.adv", PLAIN)],
        ..NOTHING
    },
    Case {
        command: "decompile t.dat u.adv",
        game: File::Of(HANDS),
        after: &[("u.adv", HANDS_PLAIN)],
        ..NOTHING
    },
    Case {
        source: HANDS_PLAIN,
        after: &[("u.dat", File::Of(HANDS))],
        ..COMPILED
    },
    Case {
        command: "decompile t.dat u.adv",
        game: File::Of(BARE),
        after: &[("u.adv", BARE_PLAIN)],
        ..NOTHING
    },
    Case {
        source: BARE_PLAIN,
        after: &[("u.dat", File::Of(BARE))],
        ..COMPILED
    },
];

const REFUSED: Case<'static> = Case {
    status: 5,
    after: &[("u.dat", File::Absent)],
    ..COMPILED
};

const REFUSALS: [Case<'static>; 9] = [
    Case {
        source: File::Pieces(&[CARRY, "start r9;\n", LISTS, LINES, NO_LINE, BACK]),
        said: &["t.adv: unknown name at 34\n"],
        ..REFUSED
    },
    Case {
        source: File::Pieces(&[
            CARRY,
            START,
            LISTS,
            LINES,
            "also { param 0; param 0; param 0; param 0; param 0; param 0; } { } \"\";",
            BACK,
        ]),
        said: &["t.adv: more than five conditions at 418\n"],
        ..REFUSED
    },
    Case {
        source: File::Pieces(&[
            CARRY,
            START,
            LISTS,
            LINES,
            "also { } { op 0; op 0; op 0; op 0; op 0; } \"\";",
            BACK,
        ]),
        said: &["t.adv: more than four opcodes at 401\n"],
        ..REFUSED
    },
    Case {
        source: File::Pieces(&[CARRY, START, LISTS, LINES, "line 3 150 { } { } \"\";", BACK]),
        said: &["t.adv: 150 is out of range at 373\n"],
        ..REFUSED
    },
    Case {
        source: File::Pieces(&[
            CARRY,
            START,
            LISTS,
            LINES,
            "also { } { say nosuch; } \"\";",
            BACK,
        ]),
        said: &["t.adv: unknown name at 381\n"],
        ..REFUSED
    },
    Case {
        source: File::Bytes(b"header { unused 0; carry 5; begin 1;"),
        said: &["t.adv: unexpected text at 28\n"],
        ..REFUSED
    },
    Case {
        source: File::Absent,
        status: 2,
        said: &["cannot read t.adv\n"],
        ..REFUSED
    },
    // The source itself is stored by the first call of the shelf, and loaded by the second one.
    Case {
        failing_loads: &[3],
        status: 2,
        said: &["cannot write u.dat\n"],
        ..REFUSED
    },
    Case {
        command: "decompile t.dat u.adv",
        game: File::Bytes(b""),
        source: File::Absent,
        status: 4,
        said: &["t.dat: no number at 0\n"],
        after: &[("u.adv", File::Absent)],
        ..NOTHING
    },
];

/// Cases of `compile` and `decompile`.
pub const ALL: [&[Case<'static>]; 2] = [&WRITTEN, &REFUSALS];
