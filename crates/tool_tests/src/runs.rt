//! Runs of Inform programs.
use crate::trying::{Case, File, NOTHING};

/// A run that is done, and says nothing.
pub const DONE: Case<'static> = Case {
    command: "run g.inf",
    ..NOTHING
};

const SPENT: Case<'static> = Case {
    program: File::Bytes(b"[ Main; while (1 == 1) { } ];"),
    status: 10,
    said: &["[Steps spent.]\n"],
    ..NOTHING
};

// How runs end.
const ENDS: [Case<'static>; 6] = [
    Case {
        program: File::Bytes(b"[ Main; print 1/0; ];"),
        status: 8,
        said: &["[Trap: division in main]\n"],
        ..DONE
    },
    Case {
        command: "run g.inf steps=1",
        ..SPENT
    },
    Case {
        command: "run g.inf steps=1000",
        ..SPENT
    },
    Case {
        program: File::Bytes(b"[ F n; if (n > 1) F(n - 1); ]; [ Main; F(200); ];"),
        ..DONE
    },
    Case {
        program: File::Bytes(b"[ F n; if (n > 1) F(n - 1); ]; [ Main; F(201); ];"),
        status: 8,
        said: &["[Trap: depth in f]\n"],
        ..DONE
    },
    Case {
        command: "run g.inf seed=1",
        program: File::Bytes(b"[ Main; quit; ];"),
        ..DONE
    },
];

// Programs that are refused.
const REFUSED: [Case<'static>; 7] = [
    Case {
        program: File::Bytes(b"[ Main; ]; [ F a b c d e f g h i j k l m n o; ];"),
        ..DONE
    },
    Case {
        program: File::Bytes(b"[ G a b c d e f g h i j k l m n o p; ]; [ Main; ];"),
        status: 6,
        said: &["g.inf: g has too many locals\n"],
        ..DONE
    },
    Case {
        program: File::Bytes(b"[ Main a; ];"),
        status: 6,
        said: &["g.inf: main has locals\n"],
        ..DONE
    },
    Case {
        program: File::Bytes(b"[ F a b; if (a && b || a) rtrue; ];"),
        status: 6,
        said: &["g.inf: && and || mixed at 20\n"],
        ..DONE
    },
    Case {
        program: File::Bytes(b"Include \"x\";"),
        status: 6,
        said: &["g.inf: unexpected text at 0\n"],
        ..DONE
    },
    Case {
        program: File::Bytes(b"[ Main; print '; ];"),
        status: 6,
        said: &["g.inf: bad character at 14\n"],
        ..DONE
    },
    Case {
        status: 2,
        said: &["cannot read g.inf\n"],
        ..DONE
    },
];

// Words of 16 and of 32 bits.
const WIDTHS: [Case<'static>; 8] = [
    Case {
        command: "run g.inf words=16",
        program: File::Bytes(b"[ Main; print 32767 + 1; ];"),
        said: &["-32768"],
        ..DONE
    },
    Case {
        command: "run g.inf words=32",
        program: File::Bytes(b"[ Main; print 32767 + 1; ];"),
        said: &["32768"],
        ..DONE
    },
    Case {
        command: "run g.inf words=16",
        program: File::Bytes(b"[ Main; print -32768 / -1; ];"),
        said: &["-32768"],
        ..DONE
    },
    Case {
        command: "run g.inf words=32",
        program: File::Bytes(b"[ Main; print -32768 / -1; ];"),
        said: &["32768"],
        ..DONE
    },
    Case {
        command: "run g.inf words=16",
        program: File::Bytes(b"[ Main; print 65536; ];"),
        status: 6,
        said: &["g.inf: number 65536 is too wide\n"],
        ..DONE
    },
    Case {
        command: "run g.inf words=32",
        program: File::Bytes(b"[ Main; print 65536; ];"),
        said: &["65536"],
        ..DONE
    },
    Case {
        command: "run g.inf words=16",
        program: File::Bytes(b"[ Main; print 2147483647 + 1; ];"),
        status: 6,
        said: &["g.inf: number 2147483647 is too wide\n"],
        ..DONE
    },
    Case {
        command: "run g.inf words=32",
        program: File::Bytes(b"[ Main; print 2147483647 + 1; ];"),
        said: &["-2147483648"],
        ..DONE
    },
];

/// A run that takes a line, and wants another one.
pub const READING: Case<'static> = Case {
    program: File::Bytes(
        b"Array t -> 12; Array p -> 2; [ Main; t->0 = 5; read t p; print t->1, (char) t->2; read t p; ];",
    ),
    lines: &[b"Hallo there"],
    said: &["5h"],
    ..DONE
};

// What a run takes.
const TAKEN: [Case<'static>; 4] = [
    READING,
    Case {
        program: File::Bytes(b"Array t -> 3; Array p -> 2; [ Main; t->0 = 2; read t p; ];"),
        lines: &[b"x"],
        status: 8,
        said: &["[Trap: line in main]\n"],
        ..DONE
    },
    Case {
        command: "run g.inf draws=d.txt",
        program: File::Bytes(b"Global x; [ Main; print random(6), random(6); x = random(6); ];"),
        draws: Some(b"7 100"),
        said: &["14"],
        ..DONE
    },
    Case {
        command: "run g.inf draws=d.txt",
        program: File::Bytes(b"[ Main; ];"),
        draws: Some(b"7 101"),
        status: 5,
        said: &["d.txt: not a draw at 2\n"],
        ..DONE
    },
];

/// All of them.
pub const ALL: [&[Case<'static>]; 4] = [&ENDS, &REFUSED, &WIDTHS, &TAKEN];
