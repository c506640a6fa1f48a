//! Plays that stop and are kept, plays that go on, and their translations, worked out by hand.
use crate::games::{Game, T};
use crate::plays::{ASK, CHOOSING, HALL, HILL, MOVED};
use crate::refusals::USAGE;
use crate::trying::{Case, File, NOTHING, Translated};

// The hall and the hill, from the hall to the hill.
const ON_THE_HILL: &[u8] = b"position 1
at line
taken 0
room 2 saved 0 light -1 counter 0 redraw 0
rooms 0 0 0 0 0 0 0 0 0 0 0 0 0 0 0 0
counters 0 0 0 0 0 0 0 0 0 0 0 0 0 0 0 0
flags 0 0 0 0 0 0 0 0 0 0 0 0 0 0 0 0 0 0 0 0 0 0 0 0 0 0 0 0 0 0 0 0
places 1
";

// And back.
pub const IN_THE_HALL: &[u8] = b"position 1
at line
taken 0
room 1 saved 0 light -1 counter 0 redraw 0
rooms 0 0 0 0 0 0 0 0 0 0 0 0 0 0 0 0
counters 0 0 0 0 0 0 0 0 0 0 0 0 0 0 0 0
flags 0 0 0 0 0 0 0 0 0 0 0 0 0 0 0 0 0 0 0 0 0 0 0 0 0 0 0 0 0 0 0 0
places 1
";

// The automatic groups, at the draw of the last one.
const AT_A_DRAW: &[u8] = b"position 1
at draw 4
taken 2
room 1 saved 0 light -1 counter 0 redraw 0
rooms 0 0 0 0 0 0 0 0 0 0 0 0 0 0 0 0
counters 0 0 0 0 0 0 0 0 0 0 0 0 0 0 0 0
flags 0 0 0 0 0 0 0 0 0 0 0 0 0 0 0 0 0 0 0 0 0 0 0 0 0 0 0 0 0 0 0 0
places 1
";

// The same where one draw alone was there to be dropped.
const AFTER_ONE_DRAW: &[u8] = b"position 1
at draw 4
taken 1
room 1 saved 0 light -1 counter 0 redraw 0
rooms 0 0 0 0 0 0 0 0 0 0 0 0 0 0 0 0
counters 0 0 0 0 0 0 0 0 0 0 0 0 0 0 0 0
flags 0 0 0 0 0 0 0 0 0 0 0 0 0 0 0 0 0 0 0 0 0 0 0 0 0 0 0 0 0 0 0 0
places 1
";

const LEADING_ZERO: &[u8] = b"position 1
at line
taken 00
";

const CARRIAGE_RETURN: &[u8] = b"position 1\r
at line\r
";

const SAVED: Case<'static> = Case {
    command: "play t.dat save=p.pos",
    game: File::Of(T),
    lines: &[b"n"],
    said: &[HALL, ASK, MOVED, HILL, ASK],
    after: &[("p.pos", File::Bytes(ON_THE_HILL)), ("t.dat", File::Of(T))],
    ..NOTHING
};

pub const GONE_ON: Case<'static> = Case {
    command: "play t.dat from=p.pos",
    game: File::Of(T),
    position: Some(ON_THE_HILL),
    lines: &[b"go south"],
    said: &[MOVED, HALL, ASK],
    after: &[("p.pos", File::Bytes(ON_THE_HILL))],
    ..NOTHING
};

const ENDING: Game<'static> = Game {
    actions: &["450 0 0 0 0 0 9450 0"],
    ..T
};

// At a prompt; a position that takes the place of the one before it, or of the database; and a game
// that is over, of which none is kept.
const AT_PROMPTS: [Case<'static>; 5] = [
    SAVED,
    GONE_ON,
    Case {
        command: "play t.dat save=p.pos from=p.pos",
        after: &[("p.pos", File::Bytes(IN_THE_HALL))],
        ..GONE_ON
    },
    Case {
        command: "play t.dat save=t.dat seed=5",
        after: &[("t.dat", File::Bytes(ON_THE_HILL)), ("p.pos", File::Absent)],
        ..SAVED
    },
    Case {
        game: File::Of(ENDING),
        lines: &[b"look", b"n"],
        said: &[HALL, ASK, "The game is now over.\n"],
        after: &[("p.pos", File::Absent)],
        ..SAVED
    },
];

const DRAWN: Case<'static> = Case {
    command: "play t.dat draws=d.txt save=p.pos",
    game: File::Of(CHOOSING),
    draws: Some(b"1 100"),
    said: &[HALL, "one\ntwo\nfour\n"],
    after: &[("p.pos", File::Bytes(AT_A_DRAW))],
    ..NOTHING
};

// At a draw, with the draws of before; and with fewer, of which all are dropped.
const AT_DRAWS: [Case<'static>; 3] = [
    DRAWN,
    Case {
        command: "play t.dat from=p.pos draws=d.txt",
        draws: Some(b"1 100 100"),
        position: Some(AT_A_DRAW),
        said: &["three\n", ASK],
        ..DRAWN
    },
    Case {
        command: "play t.dat from=p.pos draws=d.txt save=q.pos",
        draws: Some(b"1"),
        position: Some(AT_A_DRAW),
        said: &[],
        after: &[
            ("q.pos", File::Bytes(AFTER_ONE_DRAW)),
            ("p.pos", File::Bytes(AT_A_DRAW)),
        ],
        ..DRAWN
    },
];

const NO_POSITION: Case<'static> = Case {
    position: Some(LEADING_ZERO),
    status: 5,
    said: &["p.pos: not a position in line 3\n"],
    after: &[],
    ..GONE_ON
};

// Positions that aren't accepted, in the order in which that is found out.
const REFUSED: [Case<'static>; 6] = [
    NO_POSITION,
    Case {
        position: Some(b""),
        said: &["p.pos: not a position in line 1\n"],
        ..NO_POSITION
    },
    Case {
        position: Some(CARRIAGE_RETURN),
        said: &["p.pos: not a position in line 1\n"],
        ..NO_POSITION
    },
    // No line of the hall and the hill is a head of verb 0.
    Case {
        position: Some(AT_A_DRAW),
        said: &["p.pos: not a position in line 2\n"],
        ..NO_POSITION
    },
    Case {
        position: None,
        status: 2,
        said: &["cannot read p.pos\n"],
        ..NO_POSITION
    },
    Case {
        command: "play t.dat from=p.pos draws=d.txt",
        draws: Some(b"0"),
        said: &["d.txt: not a draw at 0\n"],
        ..NO_POSITION
    },
];

// A store that fails after the game, a console that fails in it, and one that fails as it says that
// nothing was stored. The database is stored by the first call of the shelf, and loaded by the
// second one.
const FAILING: [Case<'static>; 3] = [
    Case {
        failing_loads: &[3],
        status: 2,
        said: &[HALL, ASK, MOVED, HILL, ASK, "cannot write p.pos\n"],
        after: &[("p.pos", File::Absent)],
        ..SAVED
    },
    Case {
        failing_calls: &[1],
        status: 3,
        said: &[],
        after: &[("p.pos", File::Absent)],
        ..SAVED
    },
    Case {
        position: Some(IN_THE_HALL),
        failing_loads: &[4],
        status: 2,
        said: &[HALL, ASK, MOVED, HILL, ASK, "cannot write p.pos\n"],
        after: &[("p.pos", File::Bytes(IN_THE_HALL))],
        ..SAVED
    },
];

const UNASKED: Case<'static> = Case {
    status: 1,
    said: &[USAGE],
    after: &[("p.pos", File::Absent)],
    ..SAVED
};

const NO_REQUESTS: [Case<'static>; 7] = [
    Case {
        command: "play t.dat save=",
        ..UNASKED
    },
    Case {
        command: "play t.dat from=",
        ..UNASKED
    },
    Case {
        command: "play t.dat save=p.pos save=p.pos",
        ..UNASKED
    },
    Case {
        command: "hall t.dat 2 save=p.pos",
        ..UNASKED
    },
    Case {
        command: "translate t.dat g.inf from=p.pos",
        ..UNASKED
    },
    Case {
        command: "transfer t.dat p.pos",
        ..UNASKED
    },
    Case {
        command: "transfer t.dat p.pos g.inf seed=1",
        ..UNASKED
    },
];

const TRANSFERRED: Translated<'static> = Translated {
    translate: "transfer t.dat p.pos g.inf",
    run: "run g.inf",
    play: GONE_ON,
};

const YOUR_HALL: &str = "You are in a hall\nObvious exits: North.\n\nYou can also see: Rug\n";

/// Programs that open at a position, and what a play says that goes on from there.
pub const OPENED: &[Translated<'static>] = &[
    TRANSFERRED,
    Translated {
        translate: "transfer t.dat p.pos g.inf style=y words=32",
        run: "run g.inf words=32",
        play: Case {
            command: "play t.dat from=p.pos style=y",
            said: &[MOVED, YOUR_HALL, ASK],
            ..GONE_ON
        },
    },
];

const LONG_LIGHT: Game<'static> = Game {
    light: 40_000,
    ..CHOOSING
};

const NO_TRANSFER: Case<'static> = Case {
    command: "transfer t.dat p.pos g.inf",
    game: File::Of(CHOOSING),
    position: Some(AT_A_DRAW),
    status: 5,
    said: &["p.pos: waits for a draw\n"],
    after: &[("g.inf", File::Absent)],
    ..NOTHING
};

const NO_TRANSFERS: [Case<'static>; 5] = [
    NO_TRANSFER,
    // Before a number that is too wide is looked for.
    Case {
        game: File::Of(LONG_LIGHT),
        ..NO_TRANSFER
    },
    Case {
        position: Some(LEADING_ZERO),
        said: &["p.pos: not a position in line 3\n"],
        ..NO_TRANSFER
    },
    Case {
        game: File::Of(LONG_LIGHT),
        position: Some(IN_THE_HALL),
        status: 7,
        said: &["t.dat: light is 40000, outside 16 bits\n"],
        ..NO_TRANSFER
    },
    Case {
        game: File::Bytes(b"x"),
        status: 4,
        said: &["t.dat: no number at 0\n"],
        ..NO_TRANSFER
    },
];

/// Plays that are kept and go on, and those that fail.
pub const PLAYED: [&[Case<'static>]; 3] = [&AT_PROMPTS, &AT_DRAWS, &FAILING];

/// Positions that aren't accepted, and words that are no request.
pub const ALL_REFUSED: [&[Case<'static>]; 3] = [&REFUSED, &NO_REQUESTS, &NO_TRANSFERS];
