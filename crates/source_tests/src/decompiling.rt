//! Sources, and the plain texts of the databases that they mean, with ample memory.
use crate::expect;
use adv_compiler::compile;
use adv_decompiler::decompile;
use source_reader::read_source;
use std::process::Abort;

const PLAIN: &[u8] = b"header {
unused 0;
carry 5;
start r1;
treasures 0;
length 3;
light -1;
home 0;
}
words {
\"AUT\" \"ANY\";
\"GO\" \"NORTH\";
\"*WALK\" \"SOUTH\";
\"LOOK\" \"EAST\";
\"\" \"WEST\";
\"\" \"UP\";
\"\" \"DOWN\";
}
rooms {
room r0 \"\": 0, 0, 0, 0, 0, 0;
room r1 \"hall\": r2, 0, 0, 0, 0, 0;
room r2 \"*I'm on a hill\": 0, r1, 0, 0, 0, 0;
}
messages {
message m0 \"\";
}
items {
item i0 \"Rug\": r1;
}
lines {
also { } { } \"\";
}
trailer {
416 1 0
}
";

// A source, up to its lines and after them, and what is written of it.
const FRONT: &[u8] =
    b"header { unused -7; carry 5; start hall; treasures 3; length 3; light 40000; home 300; }
words { \"AUT\" \"ANY\"; \"GO\" \"a\"\"b\"; }
rooms {
    room \"\": 0, hall, 0, 0, 0, 0;
    room hall \"hall\": hill, 2, 1, 3, -1, 255;
    room hill \"*I'm on a hill\": 0, hall, 0, 0, 0, 0;
}
messages { message \"\"; message warm \"It is \"\"warm\"\".\"; }
items { item rug \"Rug\": hall; item \"Pin\": carried; item \"\": 0; item \"x\": 254; }
lines {
";

const BACK: &[u8] = b"
}
trailer { 416 -1 7 }
";

const PLAIN_FRONT: &[u8] = b"header {
unused -7;
carry 5;
start r1;
treasures 3;
length 3;
light 40000;
home 300;
}
words {
\"AUT\" \"ANY\";
\"GO\" \"a\"\"b\";
}
rooms {
room r0 \"\": 0, r1, 0, 0, 0, 0;
room r1 \"hall\": r2, r2, r1, 3, -1, 255;
room r2 \"*I'm on a hill\": 0, r1, 0, 0, 0, 0;
}
messages {
message m0 \"\";
message m1 \"It is \"\"warm\"\".\";
}
items {
item i0 \"Rug\": r1;
item i1 \"Pin\": carried;
item i2 \"\": nowhere;
item i3 \"x\": 254;
}
lines {
";

const PLAIN_BACK: &[u8] = b"
}
trailer {
416 -1 7
}
";

// The plain text of the database that a source means.
fn plain_of<R: Abort + AllocGlobal>(rt: &R, text: &[u8]) -> Vec<u8> {
    let source = read_source(rt.alloc(), text).expect(rt, "a source");
    let db = compile(rt.alloc(), &source).expect(rt, "a database");
    decompile(rt.alloc(), &db).expect(rt, "memory")
}

#[test]
fn a_plain_text_is_written_again(rt: HostRuntime) {
    expect!(rt; plain_of(&rt, PLAIN).as_slice() == PLAIN);
}

// Expects that each line is written as the second one.
fn expect_written<R: Abort + AllocGlobal>(rt: &R, cases: &[(&[u8], &[u8])]) {
    for (line, plain) in cases {
        let text = [FRONT, line, BACK].concat(rt.alloc()).expect(rt, "memory");
        let expected = [PLAIN_FRONT, plain, PLAIN_BACK].concat(rt.alloc());
        expect!(rt; plain_of(rt, &text) == expected.expect(rt, "memory"));
    }
}

// Lines, and how they are written.
const HEADS: &[(&[u8], &[u8])] = &[
    (b"also { } { };", b"also { } { } \"\";"),
    (
        b"auto 50 { carried 0; at 1; not_at 9; near 7; flag_set 1; } { more; } \"after\";",
        b"auto 50 { carried i0; at r1; not_at 9; near 7; flag_set 1; } { more; } \"after\";",
    ),
    (
        b"line \"GO\" 149 { in_game 3; out_of_game 4; at_start 0; not_at_start 1; at 0; } { op 0; op 90; op 0; say 1; } \"say \"\"hi\"\"\";",
        b"line 1 149 { in_game i3; out_of_game 4; at_start i0; not_at_start i1; at 0; } { op 0; op 90; op 0; say m1; } \"say \"\"hi\"\"\";",
    ),
    (
        b"also { param 0; param 5; } { } \"x\";",
        b"also { param 0; param 5; } { } \"x\";",
    ),
    (
        b"also { none_carried 5; some_carried 0; } { swap_room(3); picture(9); set(1); } \"\";",
        b"also { none_carried 5; some_carried 0; } { swap_room(3); picture(9); set(1); } \"\";",
    ),
];

#[test]
fn tests_and_heads_are_written(rt: HostRuntime) {
    expect_written(&rt, HEADS);
}

// Lines whose opcodes are written with their parameters.
const BRACKETS: &[(&[u8], &[u8])] = &[
    (
        b"line 3 0 { param 0; param 1; } { get; drop; } \"\";",
        b"line 3 0 { } { get(i0); drop(i1); } \"\";",
    ),
    (
        b"also { not_here 1; param 1; param 2; } { put; go(1); } \"\";",
        b"also { not_here i1; } { put(i1, r2); go(r1); } \"\";",
    ),
    (
        b"line 1 1 { param 0; param 1; param 2; param 3; param 4; } { swap; join; get; look; } \"\";",
        b"line 1 1 { } { swap(i0, i1); join(i2, i3); get(4); look; } \"\";",
    ),
    (
        b"also { counter_is 3; param 2; } { counter_set; } \"\";",
        b"also { counter_is 3; } { counter_set(2); } \"\";",
    ),
    (
        b"also { } { say 100; say 51; remove2; look2; } \"\";",
        b"also { } { say 100; say 51; remove2(i0); look2; } \"\";",
    ),
    (
        b"also { carried 0; } { get; drop; } \"\";",
        b"also { carried i0; } { get(i0); drop(i0); } \"\";",
    ),
];

#[test]
fn brackets_are_written(rt: HostRuntime) {
    expect_written(&rt, BRACKETS);
}

// Lines whose opcodes are written without parameters.
const NO_BRACKETS: &[(&[u8], &[u8])] = &[
    (
        b"line 3 0 { param 0; param 1; param 0; param 0; carried 0; } { get; drop; } \"\";",
        b"line 3 0 { param 0; param 1; param 0; param 0; carried i0; } { get; drop; } \"\";",
    ),
    (
        b"line 1 1 { param 0; param 1; param 2; param 3; param 4; } { swap; join; put; } \"\";",
        b"line 1 1 { param 0; param 1; param 2; param 3; param 4; } { swap; join; put; } \"\";",
    ),
    (
        b"also { param 1; here 0; } { take; } \"\";",
        b"also { param 1; here i0; } { take; } \"\";",
    ),
    (
        b"also { param 2; param 7; } { go; } \"\";",
        b"also { param 2; param 7; } { go; } \"\";",
    ),
];

#[test]
fn brackets_are_left_out(rt: HostRuntime) {
    expect_written(&rt, NO_BRACKETS);
}
