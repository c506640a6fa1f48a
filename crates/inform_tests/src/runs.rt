//! Runs: what programs say and why they stop, with ample memory.
use super::texts::program_of;
use crate::expect;
use adv_draws::Draws;
use adv_io::{Line, MemoryConsole};
use inform_names::{Accepted, accept};
use inform_run::{Runner, Stop};
use inform_tree::Width;
use itoa::Buffer;
use std::process::Abort;

// A program, the lines, the draws, the steps, the width of its words, and what it says, then why it
// stops and how many steps it used.
struct Case {
    text: &'static [u8],
    lines: &'static [&'static [u8]],
    draws: &'static [u8],
    steps: u64,
    width: Width,
    outcome: &'static [u8],
}

// Why runs stop.
const STOPS: &[Case] = &[
    Case {
        text: b"[ Main; print 1/0; ];",
        lines: &[],
        draws: b"",
        steps: 1_000,
        width: Width::W16,
        outcome: b"|trap division in 0|1",
    },
    Case {
        text: b"[ Main; while (1 == 1) { } ];",
        lines: &[],
        draws: b"",
        steps: 1,
        width: Width::W16,
        outcome: b"|spent|1",
    },
    Case {
        text: b"[ Main; while (1 == 1) { } ];",
        lines: &[],
        draws: b"",
        steps: 1_000,
        width: Width::W16,
        outcome: b"|spent|1000",
    },
    Case {
        text: b"[ F n; if (n > 1) F(n - 1); ]; [ Main; F(200); ];",
        lines: &[],
        draws: b"",
        steps: 1_000,
        width: Width::W16,
        outcome: b"|quit|600",
    },
    Case {
        text: b"[ F n; if (n > 1) F(n - 1); ]; [ Main; F(201); ];",
        lines: &[],
        draws: b"",
        steps: 1_000,
        width: Width::W16,
        outcome: b"|trap depth in 0|602",
    },
    Case {
        text: b"[ Main; print \"a~b^@@200\"; ];",
        lines: &[],
        draws: b"",
        steps: 1_000,
        width: Width::W16,
        outcome: b"a\"b\n\xc8|quit|1",
    },
    Case {
        text: b"Array a --> 3; [ Main; a-->2 = 5; print a-->2, \" \"; a-->3 = 1; ];",
        lines: &[],
        draws: b"",
        steps: 1_000,
        width: Width::W16,
        outcome: b"5 |trap index in 1|3",
    },
    Case {
        text: b"Array a -> 3; [ Main; a->0 = 300; print a->0, \" \"; print a->(-1); ];",
        lines: &[],
        draws: b"",
        steps: 1_000,
        width: Width::W16,
        outcome: b"44 |trap index in 1|3",
    },
    Case {
        text: b"[ Main; print random(0); ];",
        lines: &[],
        draws: b"5",
        steps: 1_000,
        width: Width::W16,
        outcome: b"|trap random in 0|1",
    },
    Case {
        text: b"Array t -> 4; Array p -> 2; [ Main; t->0 = 3; read t p; ];",
        lines: &[b"abc"],
        draws: b"",
        steps: 1_000,
        width: Width::W16,
        outcome: b"|trap line in 2|2",
    },
    Case {
        text: b"[ F; return 7 % 0; ]; [ Main; print \"x\"; print F(); ];",
        lines: &[],
        draws: b"",
        steps: 1_000,
        width: Width::W16,
        outcome: b"x|trap division in 0|4",
    },
    Case {
        text: b"[ F; quit; ]; [ Main; print \"a\"; F(); print \"b\"; ];",
        lines: &[],
        draws: b"",
        steps: 1_000,
        width: Width::W16,
        outcome: b"a|quit|4",
    },
];

// Words at both widths.
const WORDS: &[Case] = &[
    Case {
        text: b"[ Main; print 32767 + 1; ];",
        lines: &[],
        draws: b"",
        steps: 1_000,
        width: Width::W16,
        outcome: b"-32768|quit|1",
    },
    Case {
        text: b"[ Main; print 32767 + 1; ];",
        lines: &[],
        draws: b"",
        steps: 1_000,
        width: Width::W32,
        outcome: b"32768|quit|1",
    },
    Case {
        text: b"[ Main; print (-32768) / (-1); ];",
        lines: &[],
        draws: b"",
        steps: 1_000,
        width: Width::W16,
        outcome: b"-32768|quit|1",
    },
    Case {
        text: b"[ Main; print (-32768) / (-1); ];",
        lines: &[],
        draws: b"",
        steps: 1_000,
        width: Width::W32,
        outcome: b"32768|quit|1",
    },
    Case {
        text: b"[ Main; print 65536; ];",
        lines: &[],
        draws: b"",
        steps: 1_000,
        width: Width::W32,
        outcome: b"65536|quit|1",
    },
    Case {
        text: b"[ Main; print 2147483647 + 1; ];",
        lines: &[],
        draws: b"",
        steps: 1_000,
        width: Width::W32,
        outcome: b"-2147483648|quit|1",
    },
    Case {
        text: b"[ Main; print (-7) / 2, \" \", (-7) % 2, \" \", 7 % (-2), \" \", 200 * 200; ];",
        lines: &[],
        draws: b"",
        steps: 1_000,
        width: Width::W16,
        outcome: b"-3 -1 1 -25536|quit|1",
    },
    Case {
        text: b"[ Main; print (-7) / 2, \" \", (-7) % 2, \" \", 7 % (-2), \" \", 200 * 200; ];",
        lines: &[],
        draws: b"",
        steps: 1_000,
        width: Width::W32,
        outcome: b"-3 -1 1 40000|quit|1",
    },
    Case {
        text: b"[ Main; print 65535, \" \", 40000, \" \", -(-32768); ];",
        lines: &[],
        draws: b"",
        steps: 1_000,
        width: Width::W16,
        outcome: b"-1 -25536 -32768|quit|1",
    },
    Case {
        text: b"Constant K = 40000; [ Main; print K, (char) 'A' + 256; ];",
        lines: &[],
        draws: b"",
        steps: 1_000,
        width: Width::W16,
        outcome: b"-25536A|quit|1",
    },
];

// Statements.
const STATEMENTS: &[Case] = &[
    Case {
        text: b"Global i; [ Main; for (i = 0: i < 5: i++) { if (i == 1) continue; if (i == 3) break; print i; } ];",
        lines: &[],
        draws: b"",
        steps: 1_000,
        width: Width::W16,
        outcome: b"02|quit|16",
    },
    Case {
        text: b"[ Main; ]; ",
        lines: &[],
        draws: b"",
        steps: 1_000,
        width: Width::W16,
        outcome: b"|quit|0",
    },
    Case {
        text: b"Global g; [ Main; do { g++; if (g == 2) continue; print g; } until (g >= 4); ];",
        lines: &[],
        draws: b"",
        steps: 1_000,
        width: Width::W16,
        outcome: b"134|quit|17",
    },
    Case {
        text: b"[ F x; switch (x) { 1: print \"a\"; 2 to 4, 9: print \"b\"; default: print \"c\"; } ]; [ Main; F(1); F(3); F(9); F(5); ];",
        lines: &[],
        draws: b"",
        steps: 1_000,
        width: Width::W16,
        outcome: b"abbc|quit|16",
    },
    Case {
        text: b"[ F x; switch (x) { 1: return; } print \"n\"; ]; [ Main; print F(1), F(2); ];",
        lines: &[],
        draws: b"",
        steps: 1_000,
        width: Width::W16,
        outcome: b"1n1|quit|7",
    },
    Case {
        text: b"Global g = 3; [ F g; g = 5; print g; ]; [ Main; F(1); print g; ];",
        lines: &[],
        draws: b"",
        steps: 1_000,
        width: Width::W16,
        outcome: b"53|quit|5",
    },
    Case {
        text: b"[ F; rfalse; ]; [ G; rtrue; ]; [ H; ]; [ Main; print F(), G(), H(); ];",
        lines: &[],
        draws: b"",
        steps: 1_000,
        width: Width::W16,
        outcome: b"011|quit|6",
    },
    Case {
        text: b"[ F a; print a; return a; ]; [ Main; if (F(0) && F(1)) print \"x\"; if (F(1) || F(2)) print \"y\"; if (~~(F(0) == 1)) print \"z\"; ];",
        lines: &[],
        draws: b"",
        steps: 1_000,
        width: Width::W16,
        outcome: b"01y0z|quit|14",
    },
    Case {
        text: b"Array a --> 4; [ F; print \"i\"; return 1; ]; [ G; print \"v\"; return 9; ]; [ Main; a-->(F()) = G(); print a-->1; new_line; ];",
        lines: &[],
        draws: b"",
        steps: 1_000,
        width: Width::W16,
        outcome: b"iv9\n|quit|9",
    },
    Case {
        text: b"Global g; [ Main; while (g < 3) { g++; { ; print g; } } g--; print g; ];",
        lines: &[],
        draws: b"",
        steps: 1_000,
        width: Width::W16,
        outcome: b"1232|quit|19",
    },
    Case {
        text: b"[ F a b c d e f g; print a + b + c + d + e + f + g; ]; [ Main; F(1, 2, 3, 4, 5, 6, 7); F(1); ];",
        lines: &[],
        draws: b"",
        steps: 1_000,
        width: Width::W16,
        outcome: b"281|quit|6",
    },
    Case {
        text: b"[ F n; if (n < 2) return n; return F(n - 1) + F(n - 2); ]; [ Main; print F(10); ];",
        lines: &[],
        draws: b"",
        steps: 10_000,
        width: Width::W16,
        outcome: b"55|quit|532",
    },
];

// Lines and draws.
const TAKEN: &[Case] = &[
    Case {
        text: b"[ Main; print random(6), \" \", random(6), \" \", random(100); ];",
        lines: &[],
        draws: b"1 7 100",
        steps: 1_000,
        width: Width::W16,
        outcome: b"1 1 100|quit|1",
    },
    Case {
        text: b"[ Main; print random(6), \" \"; print random(6); ];",
        lines: &[],
        draws: b"4",
        steps: 1_000,
        width: Width::W16,
        outcome: b"4 |draw|2",
    },
    Case {
        text: b"Array t -> 6; Array p -> 2; Global i; [ Main; t->0 = 4; read t p; for (i = 1: i < 6: i++) print t->i, \" \"; read t p; ];",
        lines: &[b"ABCDEFG"],
        draws: b"",
        steps: 1_000,
        width: Width::W16,
        outcome: b"4 97 98 99 100 |line|15",
    },
    Case {
        text: b"Array t -> 6; Array p -> 2; [ Main; read t p; print t->1; read t p; print t->1; ];",
        lines: &[b"abc", b"x"],
        draws: b"",
        steps: 1_000,
        width: Width::W16,
        outcome: b"00|quit|4",
    },
    Case {
        text: b"Array t -> 123; Array p -> 2; Global i; [ Main; t->0 = 120; read t p; for (i = 0: i < t->1: i++) print (char) t->(i + 2); ];",
        lines: &[b"go  North"],
        draws: b"",
        steps: 1_000,
        width: Width::W16,
        outcome: b"go  north|quit|22",
    },
];

// The accepted program of a text.
fn accepted<R: Abort + AllocGlobal>(rt: &R, case: &Case) -> Accepted {
    accept(rt.alloc(), program_of(rt, case.text), case.width)
        .ok()
        .expect(rt, "a program")
}

// Why a run stopped, in pieces.
fn pieces_of(stop: Stop, digits: &mut Buffer) -> [&[u8]; 4] {
    match stop {
        Stop::Quit => [b"quit", b"", b"", b""],
        Stop::NeedsLine => [b"line", b"", b"", b""],
        Stop::NeedsDraw => [b"draw", b"", b"", b""],
        Stop::Spent => [b"spent", b"", b"", b""],
        Stop::Trap(kind, directive) => {
            [
                b"trap ",
                kind.word(),
                b" in ",
                digits.format(directive).as_bytes(),
            ]
        }
    }
}

fn console_of<R: Abort + AllocGlobal>(rt: &R, lines: &[&[u8]]) -> MemoryConsole {
    let alloc = rt.alloc();
    let mut typed = Vec::new(alloc);
    for line in lines {
        typed.push(Line::of(line)).expect(rt, "memory");
    }
    MemoryConsole::new(alloc, typed, Vec::new(alloc), 10_000).expect(rt, "memory")
}

// Runs a program on a console: why it stops, and how many steps it used.
fn stopped<R: Abort + AllocGlobal>(
    rt: &R,
    case: &Case,
    console: &mut MemoryConsole,
) -> (Stop, u64) {
    let program = accepted(rt, case);
    let mut draws = Draws::listed(rt.alloc(), case.draws).expect(rt, "draws");
    let mut runner = Runner::open(rt.alloc(), &program).expect(rt, "memory");
    let stop = runner
        .run(&mut draws, case.steps, console)
        .expect(rt, "a run");
    (stop, runner.used())
}

// What a program says, then why it stops and how many steps it used.
fn outcome<R: Abort + AllocGlobal>(rt: &R, case: &Case) -> Vec<u8> {
    let mut console = console_of(rt, case.lines);
    let (stop, used) = stopped(rt, case, &mut console);
    let (mut number, mut steps) = (Buffer::new(), Buffer::new());
    let reason = pieces_of(stop, &mut number)
        .concat(rt.alloc())
        .expect(rt, "memory");
    let pieces = [
        console.said(),
        b"|",
        &reason,
        b"|",
        steps.format(used).as_bytes(),
    ];
    pieces.concat(rt.alloc()).expect(rt, "memory")
}

fn expect_all<R: Abort + AllocGlobal>(rt: &R, cases: &[Case]) {
    for case in cases {
        expect!(rt; outcome(rt, case).as_slice() == case.outcome);
    }
}

#[test]
fn runs_stop(rt: HostRuntime) {
    expect_all(&rt, STOPS);
}

#[test]
fn words_have_two_widths(rt: HostRuntime) {
    expect_all(&rt, WORDS);
}

#[test]
fn statements_are_done(rt: HostRuntime) {
    expect_all(&rt, STATEMENTS);
}

#[test]
fn lines_and_draws_are_taken(rt: HostRuntime) {
    expect_all(&rt, TAKEN);
}
