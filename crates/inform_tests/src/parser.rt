//! Texts that are programs, and texts that are none, with ample memory.
use super::texts::{joined, put_many};
use crate::expect;
use inform_lexer::tokens;
use inform_parser::{ParseFault, parse};
use inform_tree::{Const, Directive, Expr, Program, Stmt};
use itoa::Buffer;
use std::alloc::Global;
use std::process::Abort;

// Each fault, with its place.
const FAULTS: &[(&[u8], ParseFault)] = &[
    (b"x", ParseFault::Unexpected(0)),
    (b"Include \"x\";", ParseFault::Unexpected(0)),
    (b"[ Main; x = (a == b); ];", ParseFault::Unexpected(15)),
    (
        b"[ Main; if ((a == b) + 1) ; ];",
        ParseFault::Unexpected(21),
    ),
    (
        b"[ F a b; if (a && b || a) rtrue; ];",
        ParseFault::Mixed(20),
    ),
    (
        b"[ F a b; if (a || b && a) rtrue; ];",
        ParseFault::Mixed(20),
    ),
    (
        b"[ F a; if (a && || a) rtrue; ];",
        ParseFault::Unexpected(16),
    ),
    (b"[ Main; return a", ParseFault::Unexpected(16)),
    (b"Constant a = (-1);", ParseFault::Unexpected(13)),
    (b"Array a -> -1;", ParseFault::Unexpected(11)),
    (b"Array a -> ;", ParseFault::Unexpected(11)),
    (b"Global a = ;", ParseFault::Unexpected(11)),
    (b"[ Main; a = -a->b; ];", ParseFault::Unexpected(14)),
    (
        b"[ Main; if (a) ; else ; else ; ];",
        ParseFault::Unexpected(24),
    ),
    (
        b"[ Main; switch (a) { 1: default: ; 2: ; } ];",
        ParseFault::Unexpected(35),
    ),
    (b"[ Main; switch (a) { ; } ];", ParseFault::Unexpected(21)),
    (b"[ Main; for (:) ; ];", ParseFault::Unexpected(14)),
    (b"[ Main; do ; while (1); ];", ParseFault::Unexpected(13)),
    (b"[ Main; print ; ];", ParseFault::Unexpected(14)),
    (
        b"[ Main; print (char \"a\"); ];",
        ParseFault::Unexpected(20),
    ),
    (b"[ Main; a() ]; ", ParseFault::Unexpected(12)),
    (b"[ 1; ];", ParseFault::Unexpected(2)),
    (b"[ Main ];", ParseFault::Unexpected(7)),
    (b"[ Main; read a; ];", ParseFault::Unexpected(14)),
    (b"[ Main; a->b = ; ];", ParseFault::Unexpected(15)),
    (b"[ Main; a ;];", ParseFault::Unexpected(10)),
    (b"[ Main; ] x", ParseFault::Unexpected(10)),
    (b"[ Main; if (~~a) ; ];", ParseFault::Unexpected(14)),
    (b"[ Main; random = 1; ];", ParseFault::Unexpected(8)),
    (b"[ Main; break 1; ];", ParseFault::Unexpected(14)),
    (b"[ Main; } ];", ParseFault::Unexpected(8)),
];

// The fault of a text, if it has tokens.
fn fault_of(alloc: Global, bytes: &[u8]) -> Option<ParseFault> {
    match tokens(alloc, bytes) {
        Ok(tokens) => parse(alloc, tokens, bytes).err(),
        Err(_) => None,
    }
}

#[test]
fn faults_are_found(rt: HostRuntime) {
    for (bytes, fault) in FAULTS {
        expect!(rt; fault_of(rt.alloc(), bytes) == Some(*fault));
    }
}

// Texts of programs, of each kind of statement.
const PROGRAMS: &[&[u8]] = &[
    b"",
    b"Constant a = -1; Global b; Global c = 'x'; Array d --> 1 (-2) 'y' a;",
    b"[ Main; ; { } x = 1; x->2 = 3; x-->y = 3; x++; x--; f(); f(1, -x, x->1, y-->(z)); ];",
    b"[ Main a b; if (a) ; else { b = 1; } while (a < 1) ; do ; until (~~(a == b)); ];",
    b"[ Main; for (::) ; for (i = 0 : i < 3 && j ~= 2 : i++) break; for (:(a):) continue; ];",
    b"[ Main; switch (x) { } switch (x + 1) { 1, 'a', b: ; c to -2: c(); c = 1; default: } ];",
    b"[ Main; quit; rtrue; rfalse; return; return (1 + 2) * 3 / 4 % 5 - 6; new_line; ];",
    b"[ Main; print \"a\", 1, (char) 65, (a) + 1, random(6); read a b; ];",
    b"[ Main; if ((a) + 1 >= b || (a <= b && c > 1) || ~~(a)) ; ];",
];

#[test]
fn programs_are_read(rt: HostRuntime) {
    for bytes in PROGRAMS {
        expect!(rt; fault_of(rt.alloc(), bytes).is_none());
    }
}

// The expression that a program of one routine with one statement returns.
fn returned(program: &Program) -> Option<&Expr> {
    let [Directive::Routine(main)] = program.directives.as_slice() else {
        return None;
    };
    match main.body.as_slice() {
        [Stmt::Return(Some(value))] => Some(value),
        _ => None,
    }
}

// Whether a text is the program of one routine that returns -7.
fn returns_minus_7(alloc: Global, bytes: &[u8]) -> bool {
    let Ok(tokens) = tokens(alloc, bytes) else {
        return false;
    };
    let Ok(program) = parse(alloc, tokens, bytes) else {
        return false;
    };
    match returned(&program) {
        Some(Expr::Neg(operand)) => matches!(**operand, Expr::Number(7)),
        _ => false,
    }
}

// Whether a text is an array of words with the entries 3 and -4.
fn is_array(alloc: Global, bytes: &[u8]) -> bool {
    let Ok(tokens) = tokens(alloc, bytes) else {
        return false;
    };
    let Ok(program) = parse(alloc, tokens, bytes) else {
        return false;
    };
    match program.directives.as_slice() {
        [Directive::Array(_, true, entries)] => {
            match entries.as_slice() {
                [first, last] => matches!(first, Const::Number(3))
                    && matches!(last, Const::Minus(4)),
                _ => false,
            }
        }
        _ => false,
    }
}

#[test]
fn trees_are_given(rt: HostRuntime) {
    expect!(rt; returns_minus_7(rt.alloc(), b"[ Main; return -7; ];"));
    expect!(rt; is_array(rt.alloc(), b"Array a --> 3 (-4);"));
}

// A text of one routine: what opens, so many times, then the middle, and what closes as often.
fn nested<R: Abort + AllocGlobal>(rt: &R, count: u32, parts: [&str; 3]) -> String {
    let [opens, middle, closes] = parts;
    let mut text = joined(rt, &["[ Main; "]);
    put_many(rt, &mut text, opens, count);
    text.push_str(middle).expect(rt, "memory");
    put_many(rt, &mut text, closes, count);
    text.push_str(" ];").expect(rt, "memory");
    text
}

// What opens, what stands in the middle, what closes, how many fit in one another, and the place of
// the first opener too many where there are 201.
const OPENERS: &[([&str; 3], u32, usize)] = &[
    (["{", "", "}"], 200, 208),
    (["if(1)", ";", ""], 199, 1005),
    (["while(1)", ";", ""], 199, 1605),
    (["do ", ";", "until(1);"], 199, 608),
    (["for(::)", ";", ""], 199, 1404),
];

#[test]
fn openers_are_limited(rt: HostRuntime) {
    for (parts, most, at) in OPENERS {
        let fits = nested(&rt, *most, *parts);
        expect!(rt; fault_of(rt.alloc(), fits.as_bytes()).is_none());
        let too_deep = nested(&rt, 201, *parts);
        let found = fault_of(rt.alloc(), too_deep.as_bytes());
        expect!(rt; found == Some(ParseFault::TooDeep(*at)));
    }
}

// The fault of a text with one statement that sets a variable to 1 in so many brackets.
fn bracketed<R: Abort + AllocGlobal>(rt: &R, count: u32) -> Option<ParseFault> {
    let mut text = joined(rt, &["[ Main; x = "]);
    put_many(rt, &mut text, "(", count);
    text.push_str("1").expect(rt, "memory");
    put_many(rt, &mut text, ")", count);
    text.push_str("; ];").expect(rt, "memory");
    fault_of(rt.alloc(), text.as_bytes())
}

#[test]
fn round_brackets_are_limited(rt: HostRuntime) {
    expect!(rt; bracketed(&rt, 200).is_none());
    expect!(rt; bracketed(&rt, 201) == Some(ParseFault::TooDeep(212)));
    expect!(rt; fault_of(rt.alloc(), &[b'('; 201]) == Some(ParseFault::Unexpected(0)));
}

// What is said of each fault.
const TOLD: &[(ParseFault, &str)] = &[
    (ParseFault::Unexpected(0), "unexpected text at 0"),
    (ParseFault::Mixed(20), "&& and || mixed at 20"),
    (ParseFault::TooDeep(1005), "nested too deeply at 1005"),
    (ParseFault::Memory, ""),
];

#[test]
fn faults_are_told(rt: HostRuntime) {
    for (fault, text) in TOLD {
        let mut digits = Buffer::new();
        let told = fault.pieces(&mut digits).concat(rt.alloc());
        expect!(rt; told.expect(&rt, "memory").as_slice() == text.as_bytes(), text);
    }
}
