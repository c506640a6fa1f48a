//! Shelves and consoles that fail, call by call.
use crate::coverage::{CALLED, CHOSEN};
use crate::expect;
use crate::games::T;
use crate::halls::TWO_SESSIONS;
use crate::plays::WALK;
use crate::positions::{GONE_ON, IN_THE_HALL};
use crate::runs::READING;
use crate::sources::PLAIN;
use crate::steps::AT_F;
use crate::trying::{
    Case, File, NOTHING, answer_of, expect_file, expect_translated, joined, plain_of,
};
use adv_io::MemoryConsole;
use std::process::Abort;

const SMALL: &[u8] = b"[ Main; ];";

// A file of each kind, all of them good.
const ALL_THERE: Case<'static> = Case {
    game: File::Of(T),
    source: PLAIN,
    program: File::Bytes(SMALL),
    draws: Some(b"7 100"),
    position: Some(IN_THE_HALL),
    ..NOTHING
};

// ---- shelves that fail

const NO_GAME: &str = "cannot read t.dat\n";

const NO_DRAWS: &str = "cannot read d.txt\n";

const NO_POSITION: &str = "cannot read p.pos\n";

const NO_PROGRAM: &str = "cannot read g.inf\n";

const NOT_STORED: &str = "cannot write g.inf\n";

// A command, and what is said where each call of the shelf fails in its turn.
const FAILING_SHELVES: &[(&str, &[&[&str]])] = &[
    ("check t.dat", &[&[NO_GAME]]),
    (
        "compile t.adv t.dat",
        &[&["cannot read t.adv\n"], &["cannot write t.dat\n"]],
    ),
    (
        "decompile t.dat t.adv",
        &[&[NO_GAME], &["cannot write t.adv\n"]],
    ),
    ("play t.dat", &[&[NO_GAME]]),
    ("play t.dat draws=d.txt", &[&[NO_GAME], &[NO_DRAWS]]),
    (
        "play t.dat save=p.pos draws=d.txt from=p.pos",
        &[
            &[NO_GAME],
            &[NO_DRAWS],
            &[NO_POSITION],
            &["cannot write p.pos\n"],
        ],
    ),
    ("hall t.dat 2", &[&[NO_GAME]]),
    ("cover t.dat draws=d.txt", &[&[NO_GAME], &[NO_DRAWS]]),
    ("translate t.dat g.inf", &[&[NO_GAME], &[NOT_STORED]]),
    (
        "transfer t.dat p.pos g.inf",
        &[&[NO_GAME], &[NO_POSITION], &[NOT_STORED]],
    ),
    ("run g.inf draws=d.txt", &[&[NO_PROGRAM], &[NO_DRAWS]]),
    (
        "step g.inf every=2 draws=d.txt",
        &[&[NO_PROGRAM], &[NO_DRAWS]],
    ),
    ("calls g.inf draws=d.txt", &[&[NO_PROGRAM], &[NO_DRAWS]]),
    ("simplify g.inf g.inf", &[&[NO_PROGRAM], &[NOT_STORED]]),
];

// All files as they were.
const UNCHANGED: &[(&str, File<'static>)] = &[
    ("t.dat", File::Of(T)),
    ("t.adv", PLAIN),
    ("g.inf", File::Bytes(SMALL)),
    ("d.txt", File::Bytes(b"7 100")),
    ("p.pos", File::Bytes(IN_THE_HALL)),
];

// A command, where the shelf's calls of these numbers fail.
fn failing_at<'a>(command: &'a str, numbers: &'a [u64]) -> Case<'a> {
    Case {
        command,
        failing_loads: numbers,
        ..ALL_THERE
    }
}

// Expects that a command fails, says this, and leaves all files as they were.
fn expect_failed<R: Abort + AllocGlobal>(rt: &R, case: &Case<'_>, said: &[&str]) {
    let wanted = joined(rt, said);
    let (status, console, shelf) = answer_of(rt, case);
    expect!(rt; (status, console.said()) == (2, wanted.as_slice()), case.command);
    for (name, file) in UNCHANGED {
        expect_file(rt, &shelf, name, file);
    }
}

// The files themselves are stored by the first five calls. After the last one that can fail, the
// command succeeds.
fn expect_shelves<R: Abort + AllocGlobal>(rt: &R, command: &str, failures: &[&[&str]]) {
    let mut number = 6;
    for said in failures {
        let numbers = [number];
        expect_failed(rt, &failing_at(command, &numbers), said);
        number = number.saturating_add(1);
    }
    let numbers = [number];
    let (status, _, _) = answer_of(rt, &failing_at(command, &numbers));
    expect!(rt; status == 0, command);
}

#[test]
fn shelves_fail(rt: HostRuntime) {
    for (command, failures) in FAILING_SHELVES {
        expect_shelves(&rt, command, failures);
    }
}

// ---- consoles that fail

// Commands whose console fails, and how many calls they make at least.
const CONSOLES: &[(Case<'static>, u64)] = &[
    (WALK, 8),
    (KEPT, 8),
    (NOT_KEPT, 9),
    (GONE_ON, 3),
    (CHOSEN, 4),
    (TWO_SESSIONS, 8),
    (READING, 3),
    (AT_F, 4),
    (CALLED, 2),
    (REPORTED, 1),
];

const KEPT: Case<'static> = Case {
    command: "play t.dat save=out",
    ..WALK
};

// The game is stored by the first call of the shelf and loaded by the second one.
const NOT_KEPT: Case<'static> = Case {
    failing_loads: &[3],
    ..KEPT
};

const REPORTED: Case<'static> = Case {
    command: "check t.dat",
    ..WALK
};

// Commands that are refused, each by one call.
const REFUSED: &[&str] = &[
    "demo",
    "check g.inf",
    "compile t.dat out",
    "translate p.pos out",
    "transfer t.dat d.txt out",
    "simplify t.dat out",
    "run g.inf draws=t.dat",
    "decompile out t.adv",
];

// What a command answers and says where the console's call of this number fails.
fn failed_at<R: Abort + AllocGlobal>(rt: &R, case: &Case<'_>, number: u64) -> (u8, MemoryConsole) {
    let numbers = [number];
    let failing = Case {
        failing_calls: &numbers,
        ..*case
    };
    let (status, console, shelf) = answer_of(rt, &failing);
    expect!(rt; status != 3 || shelf.file("out").is_none(), case.command);
    (status, console)
}

// The console's calls fail one by one, until none is left that can. What was said then is a prefix
// of the whole. Answers how many calls can fail, below a thousand.
fn expect_failures<R: Abort + AllocGlobal>(rt: &R, case: &Case<'_>) -> u64 {
    let (status_of_all, whole, _) = answer_of(rt, case);
    for number in 1..1_000 {
        let (status, console) = failed_at(rt, case, number);
        expect!(rt; whole.said().starts_with(console.said()), case.command);
        if status == status_of_all {
            expect!(rt; console.said() == whole.said(), case.command);
            return number - 1;
        }
        expect!(rt; status == 3, case.command);
    }
    expect!(rt; false, "a console that fails is never used up");
    1_000
}

#[test]
fn consoles_fail(rt: HostRuntime) {
    for (case, calls) in CONSOLES {
        expect!(rt; *calls <= expect_failures(&rt, case), case.command);
    }
}

// Gives a program the lines of the walk.
fn expect_run_failures<'a, R: Abort + AllocGlobal>(rt: &R, command: &'a str, program: &'a [u8]) {
    let case = Case {
        command,
        program: File::Bytes(program),
        lines: WALK.lines,
        ..NOTHING
    };
    expect!(rt; 8 <= expect_failures(rt, &case), command);
}

#[test]
fn consoles_of_translated_games_fail(rt: HostRuntime) {
    let shelf = expect_translated(&rt, &plain_of(&WALK));
    let program = shelf.file("g.inf").unwrap_or(&[]);
    expect_run_failures(&rt, "run g.inf", program);
    expect_run_failures(&rt, "calls g.inf", program);
}

#[test]
fn consoles_of_refusals_fail(rt: HostRuntime) {
    for command in REFUSED {
        let case = Case {
            command,
            ..ALL_THERE
        };
        expect!(rt; expect_failures(&rt, &case) == 1, command);
    }
}
