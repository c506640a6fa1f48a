//! Runs with a line at each pause, worked out by hand.
use crate::refusals::USAGE;
use crate::trying::{Case, File, NOTHING};

/// Statement and call are steps 1 and 2, `print` is 3, the change is 4, the second statement and
/// call are 5 and 6, and `print` is 7.
pub const AT_F: Case<'static> = Case {
    command: "step g.inf at=f",
    program: File::Bytes(b"[ F; print \"f\"; ]; Global g = 5; [ Main; F(); g = 6; F(); ];"),
    said: &["[step 2: g=5]\nf[step 6: g=6]\nf"],
    ..NOTHING
};

const LOOP: Case<'static> = Case {
    command: "step g.inf every=2 steps=5",
    program: File::Bytes(b"Global g = 40000; [ Main; while (1 == 1) g++; ]; Global h = -1;"),
    status: 10,
    ..NOTHING
};

const STEPPED: [Case<'static>; 13] = [
    AT_F,
    Case {
        command: "step g.inf at=F words=32",
        ..AT_F
    },
    Case {
        command: "step g.inf every=3",
        said: &["f[step 3: g=5]\n[step 6: g=6]\nf"],
        ..AT_F
    },
    Case {
        command: "step g.inf seed=7 every=1000",
        said: &["ff"],
        ..AT_F
    },
    // The run begins in `Main`.
    Case {
        command: "step g.inf at=main",
        said: &["ff"],
        ..AT_F
    },
    Case {
        command: "step g.inf at=f steps=6",
        status: 10,
        said: &["[step 2: g=5]\nf[step 6: g=6]\n[Steps spent.]\n"],
        ..AT_F
    },
    Case {
        command: "step g.inf words=32 every=2 steps=5",
        said: &["[step 2: g=40000 h=-1]\n[step 4: g=40001 h=-1]\n[Steps spent.]\n"],
        ..LOOP
    },
    Case {
        command: "step g.inf every=5 steps=5",
        program: File::Bytes(b"[ Main; while (1 == 1) { } ];"),
        said: &["[step 5:]\n[Steps spent.]\n"],
        ..LOOP
    },
    // A step that ends the run is no pause.
    Case {
        command: "step g.inf every=1",
        program: File::Bytes(b"Global g; [ Main; g = 1; print 1/0; ];"),
        status: 8,
        said: &["[step 1: g=1]\n[Trap: division in main]\n"],
        ..AT_F
    },
    Case {
        command: "step g.inf every=1",
        program: File::Bytes(b"Global g; [ Main; g = 1; quit; ];"),
        said: &["[step 1: g=1]\n"],
        ..AT_F
    },
    Case {
        command: "step g.inf draws=d.txt every=1",
        program: File::Bytes(b"Global g; [ Main; g = random(6); print g; g = random(6); ];"),
        draws: Some(b"3"),
        said: &["[step 1: g=3]\n3[step 2: g=3]\n"],
        ..AT_F
    },
    Case {
        command: "step g.inf at=h draws=d.txt",
        draws: Some(b"x"),
        status: 6,
        said: &["g.inf: no routine h\n"],
        ..AT_F
    },
    Case {
        command: "step g.inf at=G",
        status: 6,
        said: &["g.inf: no routine G\n"],
        ..AT_F
    },
];

const UNASKED: Case<'static> = Case {
    status: 1,
    said: &[USAGE],
    ..AT_F
};

const REFUSED: [Case<'static>; 9] = [
    Case {
        command: "step g.inf",
        ..UNASKED
    },
    Case {
        command: "step g.inf at=",
        ..UNASKED
    },
    Case {
        command: "step g.inf at=f every=2",
        ..UNASKED
    },
    Case {
        command: "step g.inf every=0",
        ..UNASKED
    },
    Case {
        command: "step g.inf every=1000000000000000001",
        ..UNASKED
    },
    Case {
        command: "step g.inf at=f style=y",
        ..UNASKED
    },
    Case {
        command: "run g.inf at=f",
        ..UNASKED
    },
    Case {
        command: "step g.inf at=h",
        program: File::Bytes(b"[ F; ];"),
        status: 6,
        said: &["g.inf: main is missing\n"],
        ..AT_F
    },
    Case {
        command: "step g.inf at=f draws=d.txt",
        draws: Some(b"x"),
        status: 5,
        said: &["d.txt: not a draw at 0\n"],
        ..AT_F
    },
];

/// Runs with a line at each pause.
pub const ALL: [&[Case<'static>]; 2] = [&STEPPED, &REFUSED];
