//! Numbers and strings at the ends of their ranges, with ample memory.
use crate::answers::are_bytes;
use crate::expect;
use crate::games::joined;
use adv_text::{Scan, TextFault, put_integer, put_number, put_quoted};
use std::process::Abort;

// Texts, the number that each begins with or the fault, and the place after it.
const NUMBERS: &[(&[u8], (Result<i32, TextFault>, usize))] = &[
    (b"-2147483648x", (Ok(-2147483648), 11)),
    (b"2147483647", (Ok(2147483647), 10)),
    (b"\t\r\n +007 8", (Ok(7), 8)),
    (b"-0-1", (Ok(0), 2)),
    (b" 30415 2", (Ok(30415), 6)),
    (b"\n999999 \"", (Ok(999999), 7)),
    (b" 1000000 ", (Ok(1000000), 8)),
    (b" -", (Err(TextFault::NoNumber(1)), 0)),
    (b"", (Err(TextFault::NoNumber(0)), 0)),
    (b"  \"1\"", (Err(TextFault::NoNumber(2)), 0)),
    (b"2147483648", (Err(TextFault::BigNumber(0)), 0)),
    (
        b" -99999999999999999999999x",
        (Err(TextFault::BigNumber(1)), 0),
    ),
];

#[test]
fn numbers_are_read_or_refused(rt: HostRuntime) {
    for (bytes, read) in NUMBERS {
        let mut scan = Scan::new(bytes);
        expect!(rt; (scan.number(), scan.at()) == *read);
    }
}

// Texts, the string that each begins with or the fault, the place after it, and the number there.
const STRINGS: &[(
    &[u8],
    Result<&[u8], TextFault>,
    (usize, Result<i32, TextFault>),
)] = &[
    (b" \"a\"\"b`c\r\nd\" 5", Ok(b"a\"b\"c\nd"), (12, Ok(5))),
    (b"\n\"hall\" 2", Ok(b"hall"), (7, Ok(2))),
    (b" \"\"\n", Ok(b""), (3, Err(TextFault::NoNumber(4)))),
    (
        b" \"a\"\"b\" ",
        Ok(b"a\"b"),
        (7, Err(TextFault::NoNumber(8))),
    ),
    (b" \"a\"", Ok(b"a"), (4, Err(TextFault::NoNumber(4)))),
    (
        b" x",
        Err(TextFault::NoQuote(1)),
        (0, Err(TextFault::NoNumber(1))),
    ),
    (
        b"",
        Err(TextFault::NoQuote(0)),
        (0, Err(TextFault::NoNumber(0))),
    ),
    (
        b"\n\"ab\"\"",
        Err(TextFault::OpenString(1)),
        (0, Err(TextFault::NoNumber(1))),
    ),
];

#[test]
fn strings_are_read_or_refused(rt: HostRuntime) {
    for (bytes, text, after) in STRINGS {
        let mut scan = Scan::new(bytes);
        expect!(rt; are_bytes(scan.quoted(rt.alloc()), *text));
        expect!(rt; (scan.at(), scan.number()) == *after);
    }
}

// The longest string that is read, and a longer one.
const LONGEST: &[u8] = &[b'x'; 4096];

const LONGER: &[u8] = &[b'x'; 4097];

// What is read of the string of these bytes.
fn read_back<R: Abort + AllocGlobal>(rt: &R, bytes: &[u8]) -> Result<Vec<u8>, TextFault> {
    let text = joined(rt, &[b"\"", bytes, b"\""]);
    Scan::new(&text).quoted(rt.alloc())
}

#[test]
fn strings_end_at_the_limit(rt: HostRuntime) {
    expect!(rt; are_bytes(read_back(&rt, LONGEST), Ok(LONGEST)));
    expect!(rt; are_bytes(read_back(&rt, LONGER), Err(TextFault::LongString(0))));
}

#[test]
fn written_texts(rt: HostRuntime) {
    let alloc = rt.alloc();
    let mut out = Vec::new(alloc);
    put_number(alloc, &mut out, -2147483648).expect(&rt, "memory");
    put_quoted(alloc, &mut out, b"a\"b").expect(&rt, "memory");
    put_number(alloc, &mut out, 0).expect(&rt, "memory");
    put_integer(alloc, &mut out, i64::MIN).expect(&rt, "memory");
    expect!(rt; out.as_slice() == b"-2147483648\"a\"\"b\"0-9223372036854775808".as_slice());
}
