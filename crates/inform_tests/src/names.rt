//! Acceptance: each fault of a program, the limits on both sides, the order of faults, look-ups.
use super::texts::{joined, program_of, put_many};
use crate::expect;
use inform_names::{Accepted, Kind, Names, Value, accept};
use inform_tree::{Const, Directive, Name, Program, Width};
use itoa::Buffer;
use std::process::Abort;

// ---- what is said of a program

// "accepted", or what is said of the first fault.
fn judged<R: Abort + AllocGlobal>(rt: &R, program: Program, width: Width) -> Vec<u8> {
    let said = match accept(rt.alloc(), program, width) {
        Ok(_accepted) => b"accepted".to_vec(rt.alloc()),
        Err((_program, fault)) => fault.pieces(&mut Buffer::new()).concat(rt.alloc()),
    };
    said.expect(rt, "memory")
}

// Expects this of the program of a text.
fn expect_judged<R: Abort + AllocGlobal>(rt: &R, text: &str, width: Width, said: &str) {
    let found = judged(rt, program_of(rt, text.as_bytes()), width);
    expect!(rt; found.as_slice() == said.as_bytes(), text);
}

// What stands between two texts, and what is said of the whole where words have 16 bits.
fn expect_all<R: Abort + AllocGlobal>(rt: &R, before: &str, cases: &[(&str, &str)], after: &str) {
    for (text, said) in cases {
        expect_judged(rt, &joined(rt, &[before, text, after]), Width::W16, said);
    }
}

const EMPTY_MAIN: &str = " [ Main; ];";

// ---- directives, and a `main` after them

const DIRECTIVES: &[(&str, &str)] = &[
    ("Constant c = 65535;", "accepted"),
    ("Constant c = -65536;", "number 65536 is too wide"),
    ("Constant c = c;", "c is not defined"),
    ("Constant c = main;", "main is not defined"),
    ("Global g;", "accepted"),
    ("Global g = g;", "g is of another kind"),
    ("Global g = h;", "h is not defined"),
    ("Global g = main;", "main is of another kind"),
    ("Global main;", "main is defined twice"),
    // A constant uses earlier ones.
    ("Constant c = 1; Constant d = c;", "accepted"),
    ("Constant d = c; Constant c = 1;", "c is not defined"),
    ("Global c; Constant d = c;", "c is of another kind"),
    ("Global d = c; Constant c = 1;", "accepted"),
    ("Array d --> c; Constant c = 0;", "d has a wrong size"),
    (
        "Array d --> c; Constant c = 70000;",
        "number 70000 is too wide",
    ),
    ("Array a -> 'x' 'x';", "accepted"),
    // Locals.
    ("[ F a b a; ];", "a is defined twice"),
    ("[ F f main; ];", "accepted"),
    ("[ R a b c d e f g h i j k l m n o; ];", "accepted"),
    (
        "[ R a b c d e f g h i j k l m n o p; ];",
        "r has too many locals",
    ),
    (
        "[ R a b c d e f g h i j k l m n o o; ];",
        "o is defined twice",
    ),
    (
        "[ R a b c d e f g h i j k l m n o p p; ];",
        "r has too many locals",
    ),
    // Arguments.
    ("[ R; ]; [ F; return r(); ];", "accepted"),
    ("[ R; ]; [ F; return r(1); ];", "r has too many arguments"),
    ("[ R a b; ]; [ F; return r(1, 1); ];", "accepted"),
    (
        "[ R a b; ]; [ F; return r(1, 1, 1); ];",
        "r has too many arguments",
    ),
    (
        "[ R a b c d e f g h i; ]; [ F; return r(1, 1, 1, 1, 1, 1, 1); ];",
        "accepted",
    ),
    (
        "[ R a b c d e f g h i; ]; [ F; return r(1, 1, 1, 1, 1, 1, 1, 1); ];",
        "r has too many arguments",
    ),
];

#[test]
fn directives(rt: HostRuntime) {
    expect_all(&rt, "", DIRECTIVES, EMPTY_MAIN);
}

const MAINS: &[(&str, &str)] = &[
    ("[ Main; ];", "accepted"),
    ("[ Main x; ];", "main has locals"),
    ("[ Main x x; ];", "main has locals"),
    ("[ Maine x; ];", "main is missing"),
    ("Global main;", "main is missing"),
];

#[test]
fn mains(rt: HostRuntime) {
    expect_all(&rt, "", MAINS, "");
}

// ---- statements and values

const BEFORE_BODY: &str =
    "Constant c = 'x'; Global g; Array w --> 9; Array b -> 9; [ F x y; ]; [ Main; ";

const BODIES: &[(&str, &str)] = &[
    ("return c;", "accepted"),
    ("return g;", "accepted"),
    ("return w;", "w is of another kind"),
    ("return f;", "f is of another kind"),
    ("return x;", "x is not defined"),
    ("return g();", "g is of another kind"),
    ("return x(1, 1, 1, 1, 1, 1, 1, 1);", "x is not defined"),
    ("return w-->0;", "accepted"),
    ("return b-->0;", "b is of another kind"),
    ("return w->0;", "w is of another kind"),
    ("return c-->0;", "c is of another kind"),
    // Changes and lines that are read.
    ("g = 1;", "accepted"),
    ("c = 1;", "c is of another kind"),
    ("w = 1;", "w is of another kind"),
    ("f = 1;", "f is of another kind"),
    ("x = 1;", "x is not defined"),
    ("read b b;", "accepted"),
    ("read w b;", "w is of another kind"),
    ("read b w;", "w is of another kind"),
    ("read x y;", "x is not defined"),
    // Loops that are left.
    ("break;", "main leaves no loop"),
    ("continue;", "main leaves no loop"),
    ("while (1) break;", "accepted"),
    ("while (1) continue;", "accepted"),
    ("switch (1) { 1: continue; }", "main leaves no loop"),
    ("while (1) switch (1) { 1: break; }", "main leaves no loop"),
    ("while (1) switch (1) { 1: continue; }", "accepted"),
    ("switch (1) { 1: while (1) break; }", "accepted"),
    // Choices.
    ("switch (1) { c: }", "accepted"),
    ("switch (1) { g: }", "g is of another kind"),
    ("switch (1) { x: }", "x is not defined"),
    // The leftmost fault is the first.
    ("c = q + 70000;", "c is of another kind"),
    ("g = 70000 + q; break;", "number 70000 is too wide"),
];

#[test]
fn bodies(rt: HostRuntime) {
    expect_all(&rt, BEFORE_BODY, BODIES, " ];");
}

// Locals hide what has their names.
const BEFORE_LOCALS: &str = "Constant c = 1; Array w --> 9; [ F c w f; ";

const WITH_LOCALS: &[(&str, &str)] = &[
    ("c = 1;", "accepted"),
    ("return w;", "accepted"),
    ("return f;", "accepted"),
    ("return w-->0;", "w is of another kind"),
    ("return f();", "f is of another kind"),
    ("switch (1) { c: }", "c is of another kind"),
];

#[test]
fn locals_hide(rt: HostRuntime) {
    expect_all(&rt, BEFORE_LOCALS, WITH_LOCALS, " ]; [ Main; ];");
}

// ---- both widths

// The length of an array, and what is said of it at 16 and at 32 bits.
const LENGTHS: &[(&str, &str, &str)] = &[
    ("0", "a has a wrong size", "a has a wrong size"),
    ("1", "accepted", "accepted"),
    ("32767", "accepted", "accepted"),
    ("32768", "a has a wrong size", "a has a wrong size"),
    ("65536", "a has a wrong size", "a has a wrong size"),
    ("65537", "number 65537 is too wide", "a has a wrong size"),
    ("4294967295", "a has a wrong size", "a has a wrong size"),
    ("(-1)", "a has a wrong size", "a has a wrong size"),
    ("(-65535)", "accepted", "a has a wrong size"),
    ("(-32769)", "accepted", "a has a wrong size"),
    ("(-32768)", "a has a wrong size", "a has a wrong size"),
];

const NUMBERS: &[(&str, &str, &str)] = &[
    ("65535", "accepted", "accepted"),
    ("65536", "number 65536 is too wide", "accepted"),
    ("4294967295", "number 4294967295 is too wide", "accepted"),
];

// What stands between two texts, and what is said of the whole at 16 and at 32 bits.
fn expect_both<R: Abort + AllocGlobal>(
    rt: &R,
    before: &str,
    cases: &[(&str, &str, &str)],
    after: &str,
) {
    for (text, narrow, wide) in cases {
        let text = joined(rt, &[before, text, after]);
        expect_judged(rt, &text, Width::W16, narrow);
        expect_judged(rt, &text, Width::W32, wide);
    }
}

#[test]
fn lengths_have_two_widths(rt: HostRuntime) {
    expect_both(&rt, "Array a --> ", LENGTHS, "; [ Main; ];");
}

#[test]
fn numbers_have_two_widths(rt: HostRuntime) {
    expect_both(&rt, "[ Main; return ", NUMBERS, "; ];");
}

// ---- many of a thing

// A text, what opens and what closes so many times, and a text; and what is said of the whole.
const MANY: &[(&str, u32, [&str; 2], &str, &str)] = &[
    ("[ R; ", 64, ["{", "}"], " ]; [ Main; ];", "accepted"),
    (
        "[ R; ",
        65,
        ["{", "}"],
        " ]; [ Main; ];",
        "r is nested too deeply",
    ),
    (
        "[ Main x x; ",
        65,
        ["{", "}"],
        " ];",
        "main is nested too deeply",
    ),
    ("Array a -> ", 32767, ["1 ", ""], "; [ Main; ];", "accepted"),
    (
        "Array a -> ",
        32768,
        ["1 ", ""],
        "; [ Main; ];",
        "a has a wrong size",
    ),
];

#[test]
fn many(rt: HostRuntime) {
    for (before, count, [opens, closes], after, said) in MANY {
        let mut text = joined(&rt, &[before]);
        put_many(&rt, &mut text, opens, *count);
        put_many(&rt, &mut text, closes, *count);
        text.push_str(after).expect(&rt, "memory");
        expect_judged(&rt, &text, Width::W16, said);
    }
}

// 122 arrays of 32,767 entries have 3,997,574 together, so that 2,426 more are let through.
const LAST_LENGTHS: &[(&str, &str)] = &[
    ("2425", "accepted"),
    ("2426", "accepted"),
    ("2427", "last has a wrong size"),
];

#[test]
fn entries_together(rt: HostRuntime) {
    let mut text = String::new(rt.alloc());
    for number in 0..122 {
        write!(text, "Array a{number} --> 32767;").expect(&rt, "memory");
    }
    text.push_str("Array last --> ").expect(&rt, "memory");
    expect_all(&rt, &text, LAST_LENGTHS, "; [ Main; ];");
}

// An array without entries, which no text has.
#[test]
fn array_without_entries(rt: HostRuntime) {
    let alloc = rt.alloc();
    let word = Name::of(b"a".to_vec(alloc).expect(&rt, "memory"));
    let array = Directive::Array(word, false, Vec::new(alloc));
    let directives = vec![in alloc; array].expect(&rt, "memory");
    let found = judged(&rt, Program { directives }, Width::W16);
    expect!(rt; found.as_slice() == b"a has a wrong size".as_slice());
}

// ---- look-ups

const SAMPLE: &[u8] = b"Constant c = -1; Global g = c; Array w --> 9; [ F x y; ]; [ Main; ];";

// What a look-up gives for a name, after a test of what the name means.
fn looked_up(names: &Names<'_>, word: &Name) -> Option<i64> {
    let meaning = names.find(word.bytes())?;
    match meaning.kind {
        Kind::Constant(_) => Some(i64::from(names.constant(word))),
        Kind::Global => Some(names.global(word) as i64),
        Kind::Array(words) => Some(i64::from(names.array(word, words).length)),
        Kind::Routine(_) => Some(names.routine(word, 0).0 as i64),
    }
}

fn value_of(names: &Names<'_>, word: &Name) -> Option<Value> {
    let meaning = names.find(word.bytes())?;
    match meaning.kind {
        Kind::Constant(_) => Some(names.value(word)),
        Kind::Global => Some(names.value(word)),
        Kind::Array(_) => None,
        Kind::Routine(_) => None,
    }
}

// What the look-ups of the accepted sample give.
const LOOKED_UP: &[(&str, Option<i64>, Option<Value>)] = &[
    ("c", Some(-1), Some(Value::Word(-1))),
    ("g", Some(1), Some(Value::Global(1))),
    ("w", Some(9), None),
    ("f", Some(3), None),
    ("x", None, None),
];

// The sample, which is accepted.
fn accepted<R: Abort + AllocGlobal>(rt: &R, width: Width) -> Accepted {
    accept(rt.alloc(), program_of(rt, SAMPLE), width)
        .ok()
        .expect(rt, "a program")
}

fn expect_looked_up<R: Abort + AllocGlobal>(rt: &R, names: &Names<'_>) {
    for (word, found, value) in LOOKED_UP {
        let key = Name::of(word.as_bytes().to_vec(rt.alloc()).expect(rt, "memory"));
        expect!(rt; looked_up(names, &key) == *found, word);
        expect!(rt; value_of(names, &key) == *value, word);
    }
}

const WIDTHS: &[Width] = &[Width::W16, Width::W32];

#[test]
fn names_are_looked_up(rt: HostRuntime) {
    for width in WIDTHS {
        let accepted = accepted(&rt, *width);
        let names = Names::of(rt.alloc(), &accepted).expect(&rt, "memory");
        expect_looked_up(&rt, &names);
    }
}

// Expects that the accepted sample has its width, its directives and its `main`.
fn expect_found(rt: &impl Abort, names: &Names<'_>, width: Width) {
    let (at, main) = names.main();
    expect!(rt; (at, main.name.bytes()) == (4, b"main".as_slice()));
    expect!(rt; names.accepted().width() == width);
    expect!(rt; names.accepted().program().directives.len() == 5);
    expect!(rt; names.word(&Const::Minus(2)) == -2);
}

#[test]
fn main_and_constants_are_found(rt: HostRuntime) {
    for width in WIDTHS {
        let accepted = accepted(&rt, *width);
        let names = Names::of(rt.alloc(), &accepted).expect(&rt, "memory");
        expect_found(&rt, &names, *width);
    }
}

// `Global g;` and nothing else.
fn is_global_alone(program: &Program) -> bool {
    match program.directives.as_slice() {
        [Directive::Global(word, None)] => word.bytes() == b"g".as_slice(),
        _ => false,
    }
}

#[test]
fn refused_program_comes_back(rt: HostRuntime) {
    match accept(rt.alloc(), program_of(&rt, b"Global g;"), Width::W16) {
        Ok(_accepted) => expect!(rt; false),
        Err((program, _fault)) => expect!(rt; is_global_alone(&program)),
    }
}
