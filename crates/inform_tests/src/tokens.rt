//! Texts that have tokens, and texts that have none, with ample memory.
use crate::expect;
use inform_lexemes::{Keyword, Symbol};
use inform_lexer::{Glance, Kind, LexFault, glance, name, text, tokens};
use itoa::Buffer;
use std::alloc::Global;

// Each fault, with its place.
const FAULTS: &[(&[u8], LexFault)] = &[
    (b"x = $;", LexFault::BadByte(4)),
    (b"$$2", LexFault::BadByte(0)),
    (b"$$", LexFault::BadByte(0)),
    (b"a ~ b", LexFault::BadByte(2)),
    (b"a & b", LexFault::BadByte(2)),
    (b"!\x80\n\x80", LexFault::BadByte(3)),
    (b"\x00", LexFault::BadByte(0)),
    (b"\x0b", LexFault::BadByte(0)),
    (b"a#", LexFault::BadByte(1)),
    (b"x 4294967296", LexFault::BigNumber(2)),
    (b" $100000000", LexFault::BigNumber(1)),
    (
        b"$$100000000000000000000000000000000",
        LexFault::BigNumber(0),
    ),
    (b" abcdefghijklmnopqrstuvwxyz_012345", LexFault::LongName(1)),
    (b"'ab'", LexFault::BadCharacter(0)),
    (b" ''' ", LexFault::BadCharacter(1)),
    (b"'~'", LexFault::BadCharacter(0)),
    (b"'a", LexFault::BadCharacter(0)),
    (b"'\x1f'", LexFault::BadCharacter(0)),
    (b"\"a\\b\"", LexFault::BadString(2)),
    (b"\"a@65\"", LexFault::BadString(2)),
    (b"\"@@\"", LexFault::BadString(1)),
    (b"\"~@@256\"", LexFault::BadString(2)),
    (b"\"@@64@@9999999999\"", LexFault::BadString(5)),
    (b"\"\x7f\"", LexFault::BadString(1)),
    (b"\"a\xc8\"", LexFault::BadString(2)),
    (b"\"a\x00\"", LexFault::BadString(2)),
    (b"x \"a\\", LexFault::OpenString(2)),
    (b"\"a\" \"", LexFault::OpenString(4)),
    (b"\"! not closed\n", LexFault::OpenString(0)),
    (b"$ \"", LexFault::BadByte(0)),
];

fn is_refused(alloc: Global, bytes: &[u8], fault: LexFault) -> bool {
    match tokens(alloc, bytes) {
        Ok(_) => false,
        Err(other) => other == fault,
    }
}

#[test]
fn faults_are_found(rt: HostRuntime) {
    for (bytes, fault) in FAULTS {
        expect!(rt; is_refused(rt.alloc(), bytes, *fault));
    }
}

// What is said of each fault, in pieces.
const TEXTS_OF_FAULTS: &[(LexFault, &[u8], &[u8])] = &[
    (LexFault::BadByte(4), b"bad byte at ", b"4"),
    (LexFault::BigNumber(0), b"number too large at ", b"0"),
    (LexFault::LongName(17), b"name too long at ", b"17"),
    (LexFault::BadCharacter(10), b"bad character at ", b"10"),
    (LexFault::BadString(2), b"bad string at ", b"2"),
    (
        LexFault::OpenString(33554431),
        b"string not closed at ",
        b"33554431",
    ),
    (LexFault::Memory, b"", b""),
];

#[test]
fn faults_are_said(rt: HostRuntime) {
    for (fault, opening, place) in TEXTS_OF_FAULTS {
        let mut digits = Buffer::new();
        let pieces = fault.pieces(&mut digits);
        expect!(rt; pieces[0] == *opening);
        expect!(rt; pieces[1] == *place);
    }
}

// The tokens of a text, each by its kind and its span.
const TEXTS: &[(&[u8], &[(Kind, u32, u32)])] = &[
    (b"", &[]),
    (b" \t\r\n! nothing", &[]),
    (
        b"[ Main; ];",
        &[
            (Kind::Symbol, 0, 1),
            (Kind::Word, 2, 6),
            (Kind::Symbol, 6, 7),
            (Kind::Symbol, 8, 9),
            (Kind::Symbol, 9, 10),
        ],
    ),
    (
        b"a!;\"'\rb! c\nd",
        &[(Kind::Word, 0, 1), (Kind::Word, 6, 7), (Kind::Word, 11, 12)],
    ),
    (
        b"a--->7",
        &[
            (Kind::Word, 0, 1),
            (Kind::Symbol, 1, 3),
            (Kind::Symbol, 3, 5),
            (Kind::Number, 5, 6),
        ],
    ),
    (b"~~~=", &[(Kind::Symbol, 0, 2), (Kind::Symbol, 2, 4)]),
    (
        b"7a_$ffg",
        &[
            (Kind::Number, 0, 1),
            (Kind::Word, 1, 3),
            (Kind::Number, 3, 6),
            (Kind::Word, 6, 7),
        ],
    ),
    (b"$$102", &[(Kind::Number, 0, 4), (Kind::Number, 4, 5)]),
    (
        b"'!'\"a!b\";",
        &[
            (Kind::Character, 0, 3),
            (Kind::Quoted, 3, 8),
            (Kind::Symbol, 8, 9),
        ],
    ),
    (b"\"\"\"^\"", &[(Kind::Quoted, 0, 2), (Kind::Quoted, 2, 5)]),
];

fn has_tokens(alloc: Global, bytes: &[u8], expected: &[(Kind, u32, u32)]) -> bool {
    let Ok(found) = tokens(alloc, bytes) else {
        return false;
    };
    found
        .iter()
        .map(|token| (token.kind, token.start, token.end))
        .eq(expected.iter().copied())
}

#[test]
fn tokens_are_found(rt: HostRuntime) {
    for (bytes, expected) in TEXTS {
        assert!(rt; has_tokens(rt.alloc(), bytes, expected), "at {bytes:?}");
    }
}

// What a single token says at a glance.
const GLANCES: &[(&[u8], Glance)] = &[
    (b"Constant", Glance::Word(Keyword::Constant)),
    (b"NEW_line", Glance::Word(Keyword::NewLine)),
    (b"Box", Glance::Reserved),
    (b"whiles", Glance::Name),
    (b"abcdefghijklmnopqrstuvwxyz_01234", Glance::Name),
    (
        b"0000000000000000000000000000000000000012",
        Glance::Number(12),
    ),
    (b"4294967295", Glance::Number(4_294_967_295)),
    (b"$FFFFffff", Glance::Number(4_294_967_295)),
    (b"$0a", Glance::Number(10)),
    (
        b"$$11111111111111111111111111111111",
        Glance::Number(4_294_967_295),
    ),
    (b"$$0110", Glance::Number(6)),
    (b"' '", Glance::Character(32)),
    (b"'0'", Glance::Character(48)),
    (b"\"a\"", Glance::Quoted),
    (b"-->", Glance::Symbol(Symbol::WordArrow)),
    (b"%", Glance::Symbol(Symbol::Remainder)),
];

fn is_seen(alloc: Global, bytes: &[u8], expected: Glance) -> bool {
    let Ok(found) = tokens(alloc, bytes) else {
        return false;
    };
    match found.as_slice() {
        [token] => glance(bytes, *token) == expected,
        _ => false,
    }
}

#[test]
fn glances_are_seen(rt: HostRuntime) {
    for (bytes, expected) in GLANCES {
        assert!(rt; is_seen(rt.alloc(), bytes, *expected), "at {expected:?}");
    }
}

// What a single string says, escapes and blanks among it, and a name in lower case.
const SAID: &[(&[u8], &[u8])] = &[
    (b"\"@@64@@53 @@126 @@94 @@92\"", b"@5 ~ ^ \\"),
    (b"\"a^@@200  7\"", b"a\n\xc8  7"),
    (b"\"a^\n  b\"", b"a\nb"),
    (b"\"a \t\r\n b\"", b"a b"),
    (b"\"a ^ \n b^^\n\"", b"a \nb\n\n"),
    (b"\"\n\"", b" "),
    (b"\"a\tb  c\"", b"a b  c"),
    (b"\"@@94\nb\"", b"^ b"),
    (b"\"@@000065@@6 5\"", b"A\x06 5"),
    (b"\"~It's a '~!\"", b"\"It's a '\"!"),
    (b"\"\"", b""),
    (b"Msg_12A", b"msg_12a"),
];

fn says(alloc: Global, bytes: &[u8], expected: &[u8]) -> bool {
    let Ok(found) = tokens(alloc, bytes) else {
        return false;
    };
    let [token] = found.as_slice() else {
        return false;
    };
    match token.kind {
        Kind::Word => name(alloc, bytes, *token).is_ok_and(|said| said.bytes() == expected),
        _ => text(alloc, bytes, *token).is_ok_and(|said| said.bytes() == expected),
    }
}

#[test]
fn bytes_are_said(rt: HostRuntime) {
    for (bytes, expected) in SAID {
        assert!(rt; says(rt.alloc(), bytes, expected), "at {expected:?}");
    }
}
