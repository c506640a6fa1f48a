//! Simplifying: what programs become, with ample memory, and that both say the same.
use super::texts::program_of;
use crate::expect;
use adv_draws::Draws;
use adv_io::MemoryConsole;
use inform_names::{Accepted, accept};
use inform_printer::print;
use inform_run::Runner;
use inform_simplify::simplify;
use inform_tree::{Program, Width};
use std::process::Abort;

// A program, the width of its words, the program that it becomes, and what both say.
struct Case {
    text: &'static str,
    width: Width,
    simpler: &'static str,
    said: &'static [u8],
}

// Tests whose truth is known.
const KNOWN: &[Case] = &[
    Case {
        text: "[ Main; if (1 == 1) { print \"a\"; } else { print \"b\"; } quit; print \"c\"; ];",
        width: Width::W16,
        simpler: "[ Main; { print \"a\"; } quit; ];",
        said: b"a",
    },
    Case {
        text: "[ Main; while (1 == 2) { print \"a\"; } print \"z\"; ];",
        width: Width::W16,
        simpler: "[ Main; print \"z\"; ];",
        said: b"z",
    },
    Case {
        text: "[ Main; if (65535 < 0) print \"n\"; else print \"p\"; ];",
        width: Width::W16,
        simpler: "[ Main; { print \"n\"; } ];",
        said: b"n",
    },
    Case {
        text: "[ Main; if (65535 < 0) print \"n\"; else print \"p\"; ];",
        width: Width::W32,
        simpler: "[ Main; { print \"p\"; } ];",
        said: b"p",
    },
    Case {
        text: "[ Main; do { if (0) print \"a\"; if ('a') { while (0) { } break; print \"b\"; } } until (1 == 1); ];",
        width: Width::W32,
        simpler: "[ Main; do { { } { break; } } until (1 == 1); ];",
        said: b"",
    },
];

// Lists that are equal.
const EQUAL: &[Case] = &[
    Case {
        text: "[ F; print \"x\"; ]; [ Main; if (F() == 1) { print \"a\"; } else { print \"a\"; } ];",
        width: Width::W16,
        simpler: "[ F; print \"x\"; ]; [ Main; if (F() == 1) { print \"a\"; } else { print \"a\"; } ];",
        said: b"xa",
    },
    Case {
        text: "Global g; [ Main; if (g + 1 > 3 || ~~(g)) { if (1) g++; } else { { g++; } } print g; ];",
        width: Width::W16,
        simpler: "Global g; [ Main; { { g++; } } print g; ];",
        said: b"1",
    },
    Case {
        text: "Global g = 1; [ Main; if (2 / g == 2) { print \"a\"; } else { print \"a\"; } ];",
        width: Width::W16,
        simpler: "Global g = 1; [ Main; if (2 / g == 2) { print \"a\"; } else { print \"a\"; } ];",
        said: b"a",
    },
    Case {
        text: "Global g; [ Main; switch (g) { 0 to 2, 'b': if (g) g--; else g--; default: return; print \"a\"; } for (g = 1: g < 3: g++) { if (g) return g; else return (g); } ];",
        width: Width::W16,
        simpler: "Global g; [ Main; switch (g) { 0 to 2, 'b': { g--; } default: return; } for (g = 1: g < 3: g++) { { return g; } } ];",
        said: b"",
    },
];

fn accepted<R: Abort + AllocGlobal>(rt: &R, case: &Case) -> Accepted {
    accept(rt.alloc(), program_of(rt, case.text.as_bytes()), case.width)
        .ok()
        .expect(rt, "a program")
}

fn printed<R: Abort + AllocGlobal>(rt: &R, program: &Program) -> Vec<u8> {
    expect!(rt; program.well_formed());
    print(rt.alloc(), program).expect(rt, "memory")
}

// Whether a program says this; and how many steps it uses.
fn steps_of<R: Abort + AllocGlobal>(rt: &R, program: &Accepted, said: &[u8]) -> u64 {
    let alloc = rt.alloc();
    let mut console = MemoryConsole::new(alloc, Vec::new(alloc), Vec::new(alloc), 100).expect(
        rt, "memory",
    );
    let mut draws = Draws::listed(alloc, b"").expect(rt, "draws");
    let mut runner = Runner::open(alloc, program).expect(rt, "memory");
    let _stop = runner
        .run(&mut draws, 100, &mut console)
        .expect(rt, "a run");
    expect!(rt; console.said() == said);
    runner.used()
}

fn expect_simplified<R: Abort + AllocGlobal>(rt: &R, case: &Case) {
    let old = accepted(rt, case);
    let most = steps_of(rt, &old, case.said);
    let new = simplify(rt.alloc(), old).expect(rt, "memory");
    let simpler = printed(rt, &program_of(rt, case.simpler.as_bytes()));
    expect!(rt; printed(rt, new.program()).as_slice() == simpler.as_slice(), case.text);
    expect!(rt; new.width() == case.width, case.text);
    expect!(rt; steps_of(rt, &new, case.said) <= most, case.text);
}

#[test]
fn known_tests_go(rt: HostRuntime) {
    for case in KNOWN {
        expect_simplified(&rt, case);
    }
}

#[test]
fn equal_lists_become_one(rt: HostRuntime) {
    for case in EQUAL {
        expect_simplified(&rt, case);
    }
}
