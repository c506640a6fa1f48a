//! Each public call, on trees made by hand, and the list of reserved words.
use crate::expect;
use inform_tree::{
    Case, Change, Cond, Const, Directive, Expr, Item, Name, Program, Routine, Stmt, Text, Width,
    depth, is_character, is_name, is_reserved,
};
use std::process::Abort;

// The reserved words, as the profile lists them.
const LISTED: &str = "array attribute box break buffer char class constant continue default do \
    else extend font for give global has hasnt if in include inversion jump move new_line notin \
    object objectloop ofclass or print print_ret property provides quit random read remove restore \
    return rfalse rtrue save self sender spaces string style switch table to until verb while";

#[test]
fn words_are_reserved(rt: HostRuntime) {
    let mut count: u32 = 0;
    for word in LISTED.split(' ') {
        if !word.is_empty() {
            count = count.saturating_add(1);
            expect!(rt; is_reserved(word.as_bytes()), word);
        }
    }
    expect!(rt; count == 55);
}

const WORDS: &[(&str, bool)] = &[
    ("main", true),
    ("line_12", true),
    ("abcdefghijklmnopqrstuvwxyz_01234", true),
    ("abcdefghijklmnopqrstuvwxyz_012345", false),
    ("", false),
    ("1a", false),
    ("Main", false),
    ("switch", false),
];

const BYTES: &[(u8, bool)] = &[
    (b' ', true),
    (b'a', true),
    (31, false),
    (127, false),
    (b'~', false),
];

#[test]
fn names_and_characters(rt: HostRuntime) {
    for (word, fits) in WORDS {
        expect!(rt; is_name(word.as_bytes()) == *fits, word);
    }
    for (byte, fits) in BYTES {
        assert!(rt; is_character(*byte) == *fits, "at {byte}");
    }
}

// The program of one routine `main` with these statements.
fn program<R: Abort + AllocGlobal>(rt: &R, body: Vec<Stmt>) -> Program {
    let alloc = rt.alloc();
    let main = Routine {
        name: Name::of(b"main".to_vec(alloc).expect(rt, "memory")),
        locals: Vec::new(alloc),
        body,
    };
    Program {
        directives: vec![in alloc; Directive::Routine(main)].expect(rt, "memory"),
    }
}

fn depth_of(program: &Program) -> u32 {
    match program.directives.as_slice() {
        [Directive::Routine(main)] => depth(main),
        _ => 0,
    }
}

// So many blocks, one in another.
fn nested<R: Abort + AllocGlobal>(rt: &R, count: u32) -> Vec<Stmt> {
    let mut body = Vec::new(rt.alloc());
    for _ in 0..count {
        body = vec![in rt.alloc(); Stmt::Block(body)].expect(rt, "memory");
    }
    body
}

// How many blocks stand in one another, and whether they may.
const NESTED: &[(u32, bool)] = &[(0, true), (63, true), (64, true), (65, false), (200, false)];

#[test]
fn depth_64_is_the_limit(rt: HostRuntime) {
    for (count, fits) in NESTED {
        let deep = program(&rt, nested(&rt, *count));
        expect!(rt; (depth_of(&deep), deep.well_formed()) == (*count, *fits));
    }
}

// A loop whose test is a chain of so many conditions.
fn chained<R: Abort + AllocGlobal>(rt: &R, count: u32) -> Stmt {
    let mut members = Vec::new(rt.alloc());
    for _ in 0..count {
        members
            .push(Cond::Nonzero(Expr::Number(1)))
            .expect(rt, "memory");
    }
    Stmt::While(Cond::All(members), Vec::new(rt.alloc()))
}

// A `switch` with one case, of blocks so deep, with its choice or without.
fn switched<R: Abort + AllocGlobal>(rt: &R, count: u32, chosen: bool) -> Stmt {
    let mut choices = Vec::new(rt.alloc());
    if chosen {
        choices.push((Const::Number(1), None)).expect(rt, "memory");
    }
    let body = nested(rt, count);
    let cases = vec![in rt.alloc(); Case { choices, body }].expect(rt, "memory");
    Stmt::Switch(Expr::Char(b'a'), cases, None)
}

// A `print` of so many texts.
fn printed<R: Abort + AllocGlobal>(rt: &R, count: u32) -> Stmt {
    let mut items = Vec::new(rt.alloc());
    for _ in 0..count {
        let text = Text::of(b"hall".to_vec(rt.alloc()).expect(rt, "memory"));
        items.push(Item::Text(text)).expect(rt, "memory");
    }
    Stmt::Print(items)
}

fn counted_up<R: Abort + AllocGlobal>(rt: &R, name: &[u8]) -> Stmt {
    let name = Name::of(name.to_vec(rt.alloc()).expect(rt, "memory"));
    Stmt::Change(Change::Inc(name))
}

// Expects that a routine of one statement is so deep, and whether it is well formed.
fn expect_one<R: Abort + AllocGlobal>(rt: &R, statement: Stmt, deep: u32, fits: bool) {
    let one = program(rt, vec![in rt.alloc(); statement].expect(rt, "memory"));
    expect!(rt; (depth_of(&one), one.well_formed()) == (deep, fits));
}

#[test]
fn statements(rt: HostRuntime) {
    expect_one(&rt, chained(&rt, 1), 4, false);
    expect_one(&rt, chained(&rt, 2), 4, true);
    expect_one(&rt, switched(&rt, 3, true), 4, true);
    expect_one(&rt, switched(&rt, 0, false), 2, false);
    expect_one(&rt, printed(&rt, 0), 1, false);
    expect_one(&rt, printed(&rt, 2), 1, true);
    expect_one(&rt, counted_up(&rt, b"x"), 1, true);
    expect_one(&rt, counted_up(&rt, b"if"), 1, false);
}

#[test]
fn texts_and_widths(rt: HostRuntime) {
    let text = Text::of(b"a~b".to_vec(rt.alloc()).expect(&rt, "memory"));
    expect!(rt; text.bytes() == b"a~b".as_slice());
    let name = Name::of(b"lamp".to_vec(rt.alloc()).expect(&rt, "memory"));
    expect!(rt; name.bytes() == b"lamp".as_slice());
    expect!(rt; Width::W16 != Width::W32);
}
