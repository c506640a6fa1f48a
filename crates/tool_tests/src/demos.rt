//! A made game: what is told of it, and its play and the run of its program beside that.
use crate::expect;
use crate::refusals::USAGE;
use crate::trying::{Case, NOTHING, words_of};
use adv_gen::make;
use adv_io::{MemoryConsole, MemoryShelf, Shelf};
use scott_format::write_db;
use scott_tool::scott;
use std::fmt::Write;
use std::process::Abort;

const UNASKED: Case<'static> = Case {
    status: 1,
    said: &[USAGE],
    ..NOTHING
};

const NO_REQUESTS: [Case<'static>; 5] = [
    Case {
        command: "demo",
        ..UNASKED
    },
    Case {
        command: "demo 7",
        ..UNASKED
    },
    Case {
        command: "demo 121",
        ..UNASKED
    },
    Case {
        command: "demo eight",
        ..UNASKED
    },
    Case {
        command: "demo 8 seed=1",
        ..UNASKED
    },
];

/// Words that ask for no made game.
pub const ALL: [&[Case<'static>]; 1] = [&NO_REQUESTS];

// Gives a command to a shelf, with the lines of the game of 33: its status, and the console after.
fn given<R: Abort + AllocGlobal>(
    rt: &R,
    command: &str,
    shelf: &mut MemoryShelf,
) -> (u8, MemoryConsole) {
    let words = words_of(rt, command);
    let (_, lines) = make(rt.alloc(), 33).expect(rt, "memory");
    let none = Vec::new(rt.alloc());
    let mut console = MemoryConsole::new(rt.alloc(), lines, none, 1_000_000).expect(rt, "memory");
    let status = scott(rt.alloc(), &words, shelf, &mut console);
    (status, console)
}

// A shelf with the game of 33 and its translation.
fn translated<R: Abort + AllocGlobal>(rt: &R) -> MemoryShelf {
    let (db, _) = make(rt.alloc(), 33).expect(rt, "memory");
    let text = write_db(rt.alloc(), &db).expect(rt, "memory");
    let mut shelf = MemoryShelf::new(Vec::new(rt.alloc()), Vec::new(rt.alloc()));
    let _ = shelf.store(rt.alloc(), "t.dat", &text);
    let (status, _) = given(rt, "translate t.dat g.inf", &mut shelf);
    expect!(rt; status == 0);
    shelf
}

// The number at the end of a text.
fn last_number(text: &[u8]) -> u64 {
    let mut number: u64 = 0;
    for byte in text {
        number = match *byte {
            b'\n' => number,
            b'0'..=b'9' => number
                .saturating_mul(10)
                .saturating_add(u64::from(byte.saturating_sub(b'0'))),
            _ => 0,
        };
    }
    number
}

// The status of the run with so many steps.
fn status_after<R: Abort + AllocGlobal>(rt: &R, shelf: &mut MemoryShelf, steps: u64) -> u8 {
    let mut command = String::from_str(rt.alloc(), "run g.inf seed=33 steps=").expect(rt, "memory");
    write!(command, "{steps}").expect(rt, "memory");
    let (status, _) = given(rt, &command, shelf);
    status
}

#[test]
fn the_steps_that_are_told_are_those_of_the_run(rt: HostRuntime) {
    let mut shelf = translated(&rt);
    let (status, told) = given(&rt, "demo 33", &mut shelf);
    expect!(rt; status == 0);
    let steps = last_number(told.said());
    expect!(rt; status_after(&rt, &mut shelf, steps) == 0);
    expect!(rt; status_after(&rt, &mut shelf, steps.saturating_sub(1)) == 10);
}

#[test]
fn a_made_game_plays_as_its_program_runs(rt: HostRuntime) {
    let mut shelf = translated(&rt);
    let (_, played) = given(&rt, "play t.dat seed=33", &mut shelf);
    let (_, ran) = given(&rt, "run g.inf seed=33", &mut shelf);
    expect!(rt; 10_000 < played.said().len());
    expect!(rt; played.said() == ran.said());
}
