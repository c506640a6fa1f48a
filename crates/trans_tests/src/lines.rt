//! Lines: the routine of each and those that it calls, their groups, and what calls these.
use super::games::with_lines;
use super::sizes::sizes;
use crate::expect;
use scott_types::{Action, Db, Style};
use std::process::Abort;
use trans_actions::actions;
use trans_groups::{automatic, groups, groups_tried, search};

// The conditions of a line and its pairs of opcodes, and the statements of each routine that it
// brings, its own last.
const LINES: &[([u32; 5], [u32; 2], &[usize])] = &[
    // A line of zeros has no routine.
    ([0; 5], [0; 2], &[]),
    // Two conditions are two tests before the value, and a parameter is none.
    ([21, 39, 20, 0, 0], [0; 2], &[2, 2, 3]),
    // Messages that are not there are not said.
    ([0; 5], [150, 302], &[1]),
    // A get that something follows has it in two branches; one that nothing follows is called.
    ([0; 5], [52 * 150 + 86, 0], &[1, 3, 1, 2]),
    ([0; 5], [86 * 150 + 52, 0], &[1, 3, 1, 3]),
    // Two gets and what follows: an item is moved by one routine.
    ([0; 5], [52 * 150 + 52, 53 * 150], &[1, 3, 1, 2]),
    // The light is refilled, and a line that goes on has no statement for that.
    ([0; 5], [69 * 150 + 73, 0], &[1, 3, 2]),
    // A noun that is said with a newline is said by the routine that says it.
    ([0; 5], [85 * 150, 0], &[1, 2, 2]),
];

#[test]
fn lines_are_made(rt: HostRuntime) {
    for (conds, pairs, want) in LINES {
        let action = Action {
            vocab: 0,
            conds: *conds,
            pairs: *pairs,
        };
        let db = with_lines(&rt, &[action]);
        let made = actions(rt.alloc(), &db, Style::plain()).expect(&rt, "memory");
        expect!(rt; sizes(&rt, &made).as_slice() == *want);
    }
}

// Lines by their verb and noun and the first pair of opcodes: a head of verb 1 that goes on, with a
// tail; one that doesn't; an automatic one, whose tail is a line of zeros; and one of verb 1 again.
const HEADS: &[(u32, u32)] = &[
    (150, 73 * 150),
    (0, 54 * 150),
    (305, 54 * 150),
    (30, 73 * 150),
    (0, 0),
    (151, 54 * 150),
];

// The statements of the routine of each head.
const GROUPS: &[usize] = &[3, 1, 1, 1];

// The database with these lines.
fn heads<R: Abort + AllocGlobal>(rt: &R) -> Db {
    let mut lines = Vec::new(rt.alloc());
    for (vocab, pair) in HEADS {
        let action = Action {
            vocab: *vocab,
            conds: [0; 5],
            pairs: [*pair, 0],
        };
        lines.push(action).expect(rt, "memory");
    }
    with_lines(rt, &lines)
}

#[test]
fn groups_are_made(rt: HostRuntime) {
    let made = groups(rt.alloc(), &heads(&rt)).expect(&rt, "memory");
    expect!(rt; sizes(&rt, &made).as_slice() == GROUPS);
}

#[test]
fn callers_of_groups_are_made(rt: HostRuntime) {
    let db = heads(&rt);
    let made = automatic(rt.alloc(), &db).expect(&rt, "memory");
    expect!(rt; sizes(&rt, &made).as_slice() == [2].as_slice());
    let made = search(rt.alloc(), &db).expect(&rt, "memory");
    expect!(rt; sizes(&rt, &made).as_slice() == [2].as_slice());
}

#[test]
fn all_that_try_groups_are_made(rt: HostRuntime) {
    let made = groups_tried(rt.alloc(), &heads(&rt)).expect(&rt, "memory");
    expect!(rt; made.len() == 6);
}
