//! Consoles in memory: what they keep, and in how many calls pieces are said.
use crate::expect;
use adv_io::{Console, ConsoleFault, Line, MemoryConsole, ScriptConsole, Taken, say_all};
use std::process::Abort;

/// A console without lines, which fails at the calls of these numbers.
pub fn console<R: Abort + AllocGlobal>(rt: &R, failing: &[u64], room: usize) -> MemoryConsole {
    let alloc = rt.alloc();
    let failing = failing.to_vec(alloc).expect(rt, "memory");
    MemoryConsole::new(alloc, Vec::new(alloc), failing, room).expect(rt, "memory")
}

// What is typed, and what a line keeps of it.
const TYPED: &[(&[u8], &[u8])] = &[
    (b"", b""),
    (b"Go NORTH", b"go north"),
    (b"say \"Hi~\"\r", b"say \"hi~\" "),
    (b"\x00\t\x7f\x80\xff", b"     "),
    (&[b'X'; 130], &[b'x'; 120]),
];

#[test]
fn lines_keep_lower_case(rt: HostRuntime) {
    for (raw, want) in TYPED {
        let line = Line::of(raw);
        expect!(rt; (line.bytes(), line.copied().bytes()) == (*want, *want));
    }
}

// Says some bytes, and expects what was said so far.
fn expect_said(
    rt: &impl Abort,
    console: &mut MemoryConsole,
    bytes: &[u8],
    answer: Result<(), ConsoleFault>,
    said: &[u8],
) {
    expect!(rt; (console.say(bytes), console.said()) == (answer, said));
}

/// Takes a line, and expects an answer and the line that is then lent.
pub fn expect_taken<C: Console>(
    rt: &impl Abort,
    console: &mut C,
    line: &mut Line,
    answer: Result<Taken, ConsoleFault>,
    bytes: &[u8],
) {
    expect!(rt; (console.take(line), line.bytes()) == (answer, bytes));
}

// A console with a line, room for eight bytes, and a third call that fails.
fn narrow_console<R: Abort + AllocGlobal>(rt: &R) -> MemoryConsole {
    let alloc = rt.alloc();
    let lines = vec![in alloc; Line::of(b"GO North")].expect(rt, "memory");
    let failing = vec![in alloc; 3].expect(rt, "memory");
    MemoryConsole::new(alloc, lines, failing, 8).expect(rt, "memory")
}

#[test]
fn a_console_in_memory_keeps_its_history(rt: HostRuntime) {
    let mut console = narrow_console(&rt);
    let mut line = Line::of(b"before");
    let failed = Err(ConsoleFault::Failed);
    expect_said(&rt, &mut console, b"Hi", Ok(()), b"Hi");
    expect_taken(&rt, &mut console, &mut line, Ok(Taken::Got), b"go north");
    expect_said(&rt, &mut console, b"x", failed, b"Hi");
    expect_said(&rt, &mut console, b" you, abc", failed, b"Hi you, ");
    expect_taken(&rt, &mut console, &mut line, Ok(Taken::End), b"go north");
    expect!(rt; console.mark(0) == Some(2));
}

// What taking a line answers, the line that is then lent, and how many lines are left.
const TAKEN: &[(Taken, &[u8], usize)] = &[
    (Taken::Got, b"look", 1),
    (Taken::Got, b"wait", 0),
    (Taken::End, b"wait", 0),
];

#[test]
fn a_script_gives_its_lines(rt: HostRuntime) {
    let lines = [Line::of(b"look"), Line::of(b"wait")];
    let mut console = ScriptConsole::new(&lines);
    let mut line = Line::of(b"");
    expect!(rt; say_all(&mut console, &[b"any", b"thing"]) == Ok(()));
    for (answer, bytes, left) in TAKEN {
        expect_taken(&rt, &mut console, &mut line, Ok(*answer), bytes);
        expect!(rt; console.left() == *left);
    }
}

// Pieces that are said one after another, with room for ten bytes, where the second call fails.
const IN_ORDER: &[(&[&[u8]], Result<(), ConsoleFault>)] = &[
    (&[], Ok(())),
    (&[b"a", b"", b"bc"], Ok(())),
    (&[b"d"], Err(ConsoleFault::Failed)),
    (&[b"e", b"fghijklm", b"n"], Err(ConsoleFault::Failed)),
];

#[test]
fn pieces_are_said_in_order(rt: HostRuntime) {
    let mut console = console(&rt, &[2], 10);
    for (pieces, answer) in IN_ORDER {
        expect!(rt; say_all(&mut console, pieces) == *answer);
    }
    expect!(rt; console.said() == b"abcefghijk".as_slice());
}

const LONG: &[u8] = &[b'x'; 1000];

const REST: &[u8] = &[b'y'; 24];

const MORE: &[u8] = &[b'z'; 25];

const HUGE: &[u8] = &[b'h'; 5000];

// Pieces, all of them said before this call, which fails, and their size.
const BEFORE: &[(&[&[u8]], u64, usize)] = &[
    (&[b"", b""], 1, 0),
    (&[LONG, REST], 2, 1024),
    (&[LONG, MORE], 3, 1025),
    (&[HUGE, b"b"], 3, 5001),
    (&[b"a", HUGE, b"b", b"c"], 4, 5003),
];

#[test]
fn pieces_are_said_in_as_few_calls_as_may_be(rt: HostRuntime) {
    for (pieces, failing, size) in BEFORE {
        let mut console = console(&rt, &[*failing], 10_000);
        expect!(rt; (say_all(&mut console, pieces), console.said().len()) == (Ok(()), *size));
        expect!(rt; say_all(&mut console, &[b"."]) == Err(ConsoleFault::Failed));
    }
}
