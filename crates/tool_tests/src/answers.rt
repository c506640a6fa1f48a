//! Each case of the tables, and files that are too long.
use crate::games::T;
use crate::plays::{self, WALK};
use crate::refusals::{self, USAGE};
use crate::trying::{
    Case, File, NOTHING, Translated, answer_of, console_of, expect, expect_translated, plain_of,
    steps_needed,
};
use crate::{
    coverage, demos, expect, halls, lines, positions, runs, simplifications, sources, steps,
    translations,
};
use adv_io::MemoryShelf;
use scott_tool::{scott, status_without_words};
use std::io::ErrorKind;
use std::process::Abort;

// Each case of these tables.
fn expect_all<R: Abort + AllocGlobal>(rt: &R, tables: &[&[Case<'_>]]) {
    for cases in tables {
        for case in cases.iter() {
            expect(rt, case);
        }
    }
}

// Whether a text has a part.
fn is_in(part: &[u8], text: &[u8]) -> bool {
    for at in 0..text.len() {
        if text[at..].starts_with(part) {
            return true;
        }
    }
    false
}

#[test]
fn plays_are_answered(rt: HostRuntime) {
    expect_all(&rt, &plays::ALL);
}

#[test]
fn halls_are_answered(rt: HostRuntime) {
    expect_all(&rt, &halls::ALL);
}

#[test]
fn no_made_games_are_answered(rt: HostRuntime) {
    expect_all(&rt, &demos::ALL);
}

#[test]
fn steps_are_answered(rt: HostRuntime) {
    expect_all(&rt, &steps::ALL);
}

#[test]
fn positions_are_answered(rt: HostRuntime) {
    expect_all(&rt, &positions::PLAYED);
}

#[test]
fn refused_positions_are_answered(rt: HostRuntime) {
    expect_all(&rt, &positions::ALL_REFUSED);
}

#[test]
fn positions_open_programs(rt: HostRuntime) {
    expect_all_translated(&rt, positions::OPENED);
}

#[test]
fn covered_plays_are_answered(rt: HostRuntime) {
    expect_all(&rt, &coverage::ALL);
}

#[test]
fn calls_are_answered(rt: HostRuntime) {
    expect_all(&rt, &coverage::ALL_CALLS);
}

#[test]
fn both_sides_count_alike(rt: HostRuntime) {
    expect_all_translated(&rt, coverage::ALIKE);
}

#[test]
fn refused_commands_are_answered(rt: HostRuntime) {
    expect_all(&rt, &refusals::ALL);
}

#[test]
fn simplifications_are_answered(rt: HostRuntime) {
    expect_all(&rt, &simplifications::ALL);
}

#[test]
fn sources_are_answered(rt: HostRuntime) {
    expect_all(&rt, &sources::ALL);
}

#[test]
fn refused_translations_are_answered(rt: HostRuntime) {
    expect_all(&rt, &translations::ALL);
}

// Each of these games is translated and played.
fn expect_all_translated<R: Abort + AllocGlobal>(rt: &R, cases: &[Translated<'_>]) {
    for case in cases {
        expect_translated(rt, case);
    }
}

// Each of these plays, and the run of its game's program.
fn expect_all_plain<R: Abort + AllocGlobal>(rt: &R, tables: &[&[Case<'_>]]) {
    for cases in tables {
        for case in cases.iter() {
            expect_translated(rt, &plain_of(case));
        }
    }
}

#[test]
fn lines_are_translated(rt: HostRuntime) {
    expect_all_plain(&rt, &translations::PLAIN);
}

#[test]
fn lines_near_a_rule_are_translated(rt: HostRuntime) {
    expect_all_plain(&rt, &lines::ALL);
}

#[test]
fn wide_lines_are_translated(rt: HostRuntime) {
    expect_all_translated(&rt, translations::WIDE_LINES);
}

// The groups of a verb are found at once, however many others there are.
#[test]
fn verbs_are_found_at_once(rt: HostRuntime) {
    let [one, many] = &translations::OF_A_VERB;
    let few = steps_needed(&rt, one);
    let more = steps_needed(&rt, many);
    expect!(rt; few.abs_diff(more) < 400);
}

#[test]
fn translations_are_played(rt: HostRuntime) {
    expect_all_translated(&rt, translations::PLAYED);
}

// Expects that a stored program has these parts.
fn expect_parts(rt: &impl Abort, shelf: &MemoryShelf, parts: &[&str]) {
    let program = shelf.file("g.inf").unwrap_or(&[]);
    for part in parts {
        expect!(rt; is_in(part.as_bytes(), program), part);
    }
}

// Each array has an entry more than the list that it is made of.
const ARRAYS: &[&str] = &[
    "\nArray item --> 0 0 ;\n",
    "\nArray exits --> 0 0 0 0 0 0 0 ;\n",
];

#[test]
fn arrays_have_an_entry_more(rt: HostRuntime) {
    let shelf = expect_translated(&rt, &translations::CELL);
    expect_parts(&rt, &shelf, ARRAYS);
}

// What follows a get stands in two branches.
const BRANCHES: &[&str] = &[
    "\n[ line_0 ;\nif ( op_52 ( 0 ) ) {\nop_53 ( 1 ) ;\n}\n\
    else {\nop_53 ( 0 ) ;\n}\nreturn 1 ;\n] ;\n",
];

#[test]
fn gets_have_two_branches(rt: HostRuntime) {
    let shelf = expect_translated(&rt, &translations::BRANCHES);
    expect_parts(&rt, &shelf, BRANCHES);
}

// A message is one string.
const STRINGS: &[&str] = &["\"@@64@@53 @@126 @@94 @@92"];

#[test]
fn messages_are_strings(rt: HostRuntime) {
    let shelf = expect_translated(&rt, &translations::STRINGS);
    expect_parts(&rt, &shelf, STRINGS);
}

// A byte that is no character of its own.
const RAW: Case<'static> = Case {
    program: File::Bytes(br#"[ Main; print "a~b^@@200"; ];"#),
    ..runs::DONE
};

const RAW_SAID: &[u8] = &[b'a', b'"', b'b', b'\n', 200];

#[test]
fn runs_are_answered(rt: HostRuntime) {
    expect_all(&rt, &runs::ALL);
}

#[test]
fn any_byte_is_said(rt: HostRuntime) {
    let (status, console, _) = answer_of(&rt, &RAW);
    expect!(rt; status == 0);
    expect!(rt; console.said() == RAW_SAID);
}

// How many bytes are said before each line is taken.
const MARKS: &[(usize, Option<usize>)] = &[
    (0, Some(79)),
    (1, Some(142)),
    (2, Some(226)),
    (3, None),
];

// Each prompt is said before its line is taken.
#[test]
fn lines_are_taken_in_their_places(rt: HostRuntime) {
    expect!(rt; T.text(rt.alloc()).expect(&rt, "memory").len() == 209);
    let console = expect(&rt, &WALK);
    for (i, mark) in MARKS {
        expect!(rt; console.mark(*i) == *mark);
    }
}

#[test]
fn long_files_are_refused(rt: HostRuntime) {
    let long = vec![in rt.alloc(); b' '; 1_048_577].expect(&rt, "memory");
    let case = Case {
        command: "check t.dat",
        game: File::Bytes(&long),
        status: 11,
        said: &["t.dat: longer than 1048576 bytes\n"],
        ..NOTHING
    };
    expect(&rt, &case);
}

#[test]
fn long_positions_are_refused(rt: HostRuntime) {
    let long = vec![in rt.alloc(); b'p'; 65_537].expect(&rt, "memory");
    let case = Case {
        command: "play t.dat from=p.pos",
        game: File::Of(T),
        position: Some(&long),
        status: 11,
        said: &["p.pos: longer than 65536 bytes\n"],
        ..NOTHING
    };
    expect(&rt, &case);
}

#[test]
fn long_programs_are_refused(rt: HostRuntime) {
    let long = vec![in rt.alloc(); b'!'; 33_554_433].expect(&rt, "memory");
    let case = Case {
        command: "simplify g.inf h.inf",
        program: File::Bytes(&long),
        status: 11,
        said: &["g.inf: longer than 33554432 bytes\n"],
        after: &[("h.inf", File::Absent)],
        ..NOTHING
    };
    expect(&rt, &case);
}

#[test]
fn no_words_are_refused(rt: HostRuntime) {
    let alloc = rt.alloc();
    let mut shelf = MemoryShelf::new(Vec::new(alloc), Vec::new(alloc));
    let mut console = console_of(&rt, &NOTHING);
    let status = scott(alloc, &[], &mut shelf, &mut console);
    expect!(rt; status == 1);
    expect!(rt; console.said() == USAGE.as_bytes());
}

#[test]
fn words_that_cannot_be_had_are_told_apart(rt: HostRuntime) {
    expect!(rt; status_without_words(ErrorKind::OutOfMemory) == 9);
    expect!(rt; status_without_words(ErrorKind::InvalidData) == 12);
}
