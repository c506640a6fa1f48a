//! Inform programs that are simplified, and those that aren't.
use crate::refusals::USAGE;
use crate::trying::{Case, File, NOTHING};

// An `if` whose test is known, and a statement after one that leaves.
const KNOWN: &[u8] =
    b"[ Main; if (1 == 1) { print \"a\"; } else { print \"b\"; } quit; print \"c\"; ];";

const ONE_BLOCK: &[u8] = b"[ main ;\n{\nprint \"a\" ;\n}\nquit ;\n] ;\n";

const SIMPLIFIED: Case<'static> = Case {
    command: "simplify g.inf h.inf",
    program: File::Bytes(KNOWN),
    after: &[
        ("h.inf", File::Bytes(ONE_BLOCK)),
        ("g.inf", File::Bytes(KNOWN)),
    ],
    ..NOTHING
};

// A test with a call in it, and two lists that are equal.
const CALLING: &[u8] =
    b"[ F; print \"x\"; ]; [ Main; if (F() == 1) { print \"a\"; } else { print \"a\"; } ];";

const STILL_CALLING: &[u8] = b"[ f ;\nprint \"x\" ;\n] ;\n[ main ;\nif ( f ( ) == 1 ) {\n\
    print \"a\" ;\n}\nelse {\nprint \"a\" ;\n}\n] ;\n";

// A loop that is never entered.
const CLOSED: &[u8] = b"[ Main; while (1 == 2) { print \"a\"; } print \"z\"; ];";

const OPEN: &[u8] = b"[ main ;\nprint \"z\" ;\n] ;\n";

// A number that is -1 where words have 16 bits.
const WIDE: &[u8] = b"[ Main; if (65535 < 0) print \"n\"; else print \"p\"; ];";

const DONE: [Case<'static>; 7] = [
    SIMPLIFIED,
    Case {
        command: "simplify g.inf g.inf words=32",
        after: &[("g.inf", File::Bytes(ONE_BLOCK)), ("h.inf", File::Absent)],
        ..SIMPLIFIED
    },
    Case {
        program: File::Bytes(CALLING),
        after: &[("h.inf", File::Bytes(STILL_CALLING))],
        ..SIMPLIFIED
    },
    Case {
        program: File::Bytes(CLOSED),
        after: &[("h.inf", File::Bytes(OPEN))],
        ..SIMPLIFIED
    },
    Case {
        program: File::Bytes(OPEN),
        after: &[("h.inf", File::Bytes(OPEN))],
        ..SIMPLIFIED
    },
    Case {
        command: "simplify g.inf h.inf words=16",
        program: File::Bytes(WIDE),
        after: &[(
            "h.inf",
            File::Bytes(b"[ main ;\n{\nprint \"n\" ;\n}\n] ;\n"),
        )],
        ..SIMPLIFIED
    },
    Case {
        command: "simplify g.inf h.inf words=32",
        program: File::Bytes(WIDE),
        after: &[(
            "h.inf",
            File::Bytes(b"[ main ;\n{\nprint \"p\" ;\n}\n] ;\n"),
        )],
        ..SIMPLIFIED
    },
];

// What both programs say.
const SAID: [Case<'static>; 4] = [
    Case {
        command: "run g.inf",
        program: File::Bytes(KNOWN),
        said: &["a"],
        ..NOTHING
    },
    Case {
        command: "run g.inf",
        program: File::Bytes(ONE_BLOCK),
        said: &["a"],
        ..NOTHING
    },
    Case {
        command: "run g.inf",
        program: File::Bytes(STILL_CALLING),
        said: &["xa"],
        ..NOTHING
    },
    Case {
        command: "run g.inf steps=3",
        program: File::Bytes(OPEN),
        said: &["z"],
        ..NOTHING
    },
];

const UNASKED: Case<'static> = Case {
    status: 1,
    said: &[USAGE],
    after: &[("h.inf", File::Absent)],
    ..SIMPLIFIED
};

const NO_REQUESTS: [Case<'static>; 5] = [
    Case {
        command: "simplify g.inf",
        ..UNASKED
    },
    Case {
        command: "simplify",
        ..UNASKED
    },
    Case {
        command: "simplify g.inf h.inf words=8",
        ..UNASKED
    },
    Case {
        command: "simplify g.inf h.inf words=16 words=16",
        ..UNASKED
    },
    Case {
        command: "simplify g.inf h.inf steps=5",
        ..UNASKED
    },
];

const REFUSED: Case<'static> = Case {
    status: 6,
    after: &[("h.inf", File::Absent)],
    ..SIMPLIFIED
};

// The file itself is stored by the first call of the shelf, loaded by the second, and the simpler
// one is stored by the third.
const REFUSALS: [Case<'static>; 7] = [
    Case {
        program: File::Absent,
        status: 2,
        said: &["cannot read g.inf\n"],
        ..REFUSED
    },
    Case {
        failing_loads: &[2],
        status: 2,
        said: &["cannot read g.inf\n"],
        ..REFUSED
    },
    Case {
        failing_loads: &[3],
        status: 2,
        said: &["cannot write h.inf\n"],
        ..REFUSED
    },
    Case {
        program: File::Bytes(b"[ Main a; ];"),
        said: &["g.inf: main has locals\n"],
        ..REFUSED
    },
    Case {
        program: File::Bytes(b"[ Main; if (65536 == 1) quit; ];"),
        said: &["g.inf: number 65536 is too wide\n"],
        ..REFUSED
    },
    Case {
        program: File::Bytes(b"Include \"x\";"),
        said: &["g.inf: unexpected text at 0\n"],
        ..REFUSED
    },
    Case {
        program: File::Bytes(b"[ Main a; ];"),
        failing_calls: &[1],
        status: 3,
        said: &[],
        ..REFUSED
    },
];

/// Programs that are simplified, what they say, and those that are refused.
pub const ALL: [&[Case<'static>]; 4] = [&DONE, &SAID, &NO_REQUESTS, &REFUSALS];
