//! Each call, and how much it makes.
use super::games::{smallest, with_lines};
use super::sizes::sizes;
use crate::expect;
use inform_tree::Width;
use scott_types::{Action, Db, Position, State, Style};
use std::process::Abort;
use trans_commands::commands;
use trans_data::tables;
use trans_programs::program;
use trans_specs::laws::none_wide_at_32;
use trans_turn::turn;
use trans_words::words;
use translator::translate;

// The statements of each routine of a command.
const COMMANDS: &[usize] = &[3, 4, 6, 2, 3, 5, 3, 6, 6, 3, 3, 2, 2, 2];

#[test]
fn commands_are_made(rt: HostRuntime) {
    let made = commands(rt.alloc(), &smallest(&rt), Style::plain()).expect(&rt, "memory");
    expect!(rt; sizes(&rt, &made).as_slice() == COMMANDS);
}

// Five routines of a line, and two of each column.
#[test]
fn routines_of_words_are_made(rt: HostRuntime) {
    let made = words(rt.alloc(), &smallest(&rt)).expect(&rt, "memory");
    expect!(rt; made.len() == 9);
}

// The search, the automatic step, those of commands, and seven of a round.
#[test]
fn routines_of_a_turn_are_made(rt: HostRuntime) {
    let db = smallest(&rt);
    let _parts = db.parts();
    none_wide_at_32();
    let made = turn(rt.alloc(), &db, Style::plain(), Width::W32, Position::Fresh);
    expect!(rt; made.expect(&rt, "memory").len() == 23);
}

// 12 globals, 17 arrays, 17 routines of codes, two of texts and one of a message.
#[test]
fn tables_are_made(rt: HostRuntime) {
    let db = smallest(&rt);
    let _parts = db.parts();
    none_wide_at_32();
    let state = State::start(&db);
    let made = tables(rt.alloc(), &db, Style::plain(), Width::W32, &state);
    expect!(rt; made.expect(&rt, "memory").len() == 49);
}

// The tables, the nine routines of the reader and the 23 of a turn, from the beginning and from a
// state.
#[test]
fn programs_are_made(rt: HostRuntime) {
    let db = smallest(&rt);
    let _parts = db.parts();
    none_wide_at_32();
    let state = State::start(&db);
    let begun = program(rt.alloc(), &db, Style::plain(), Width::W32, None);
    expect!(rt; begun.expect(&rt, "memory").directives.len() == 81);
    let handed_in = program(rt.alloc(), &db, Style::plain(), Width::W32, Some(&state));
    expect!(rt; handed_in.expect(&rt, "memory").directives.len() == 81);
}

// A line of verb 5 with a condition and a drop: the routines of the condition, of the mover, of the
// drop, of the line and of its group besides.
const LINE: Action = Action {
    vocab: 750,
    conds: [21, 0, 0, 0, 0],
    pairs: [53 * 150, 0],
};

#[test]
fn programs_have_lines(rt: HostRuntime) {
    let db = with_lines(&rt, &[LINE]);
    let _parts = db.parts();
    let _state = State::start(&db);
    none_wide_at_32();
    let made = program(rt.alloc(), &db, Style::plain(), Width::W32, None);
    expect!(rt; made.expect(&rt, "memory").directives.len() == 86);
}

#[test]
fn translations_are_made(rt: HostRuntime) {
    let db = smallest(&rt);
    expect!(rt; translate(rt.alloc(), &db, Style::plain(), Width::W16, None).is_ok());
    let db = with_lines(&rt, &[LINE]);
    expect!(rt; translate(rt.alloc(), &db, Style::plain(), Width::W16, None).is_ok());
}
