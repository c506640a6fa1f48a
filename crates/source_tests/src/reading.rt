//! Texts that are read, and those that are refused, with ample memory.
use crate::expect;
use source_reader::{
    At, ItemPart, LinePart, Op, Ref, Source, SourceFault, Spot, condition_word, opcode_word,
    read_source,
};
use std::process::Abort;

const FRONT: &[u8] = b"header {
unused 0;
carry 5;
start r1;
treasures 0;
length 3;
light -1;
home 0;
}
words {
\"AUT\" \"ANY\";
\"GO\" \"NORTH\";
}
rooms {
room \"\": 0, 0, 0, 0, 0, 0;
room r1 \"hall\": r1, 0, 0, +7, 0, -1;
}
messages {
message greeting \"hi\";
}
items {
item rug \"Rug\": r1;
item \"a\"\"b`\": carried;
item \"\": nowhere;
}
lines {
";

const BACK: &[u8] = b"
}
trailer {
416 1 0
}
";

const LINES: &[u8] =
    b"line \"GO\" 1 { near rug; param 3; } { say greeting; op 90; look; put(rug, r1); drop(0); } \"done\";
also { } { };
auto 50 { carried rug; } { get; } \"\";";

// What is read of a text with these lines.
fn read<R: Abort + AllocGlobal>(rt: &R, lines: &[u8]) -> Result<Source, SourceFault> {
    let text = [FRONT, lines, BACK].concat(rt.alloc()).expect(rt, "memory");
    read_source(rt.alloc(), &text)
}

// The source of the lines above.
fn source<R: Abort + AllocGlobal>(rt: &R) -> Source {
    read(rt, LINES).expect(rt, "a source")
}

#[test]
fn header_and_ends_are_read(rt: HostRuntime) {
    let source = source(&rt);
    expect!(rt; (source.unused.at, source.unused.what) == (16, 0));
    expect!(rt; (source.carry.at, source.carry.what) == (25, 5));
    expect!(rt; (source.length.at, source.length.what) == (58, 3));
    expect!(rt; (source.light.at, source.light.what) == (67, -1));
    expect!(rt; (source.start.at, source.home.at) == (34, 76));
    expect!(rt; (source.words.end, source.rooms.end) == (116, 190));
    expect!(rt; (source.messages.end, source.items.end) == (226, 297));
    expect!(rt; source.lines.end == 456);
    expect!(rt; source.trailer == [416, 1, 0]);
}

// Whether an item has a name, or is carried or nowhere, as the one that stands at its place.
fn is_item(item: &At<ItemPart>) -> bool {
    let place = &item.what.place.what;
    let found = (
        item.what.name.is_some(),
        matches!(place, Spot::Carried),
        matches!(place, Spot::Nowhere),
    );
    found == (item.at == 236, item.at == 256, item.at == 279)
}

#[test]
fn words_and_items_are_read(rt: HostRuntime) {
    let source = source(&rt);
    let words = source.words.entries.as_slice();
    expect!(rt; words.len() == 2);
    for word in words {
        let found = (word.at, word.what.noun.bytes());
        expect!(rt; found == (89, b"ANY".as_slice()) || found == (102, b"NORTH".as_slice()));
    }
    let items = source.items.entries.as_slice();
    expect!(rt; items.len() == 3);
    for item in items {
        expect!(rt; is_item(item));
    }
}

#[test]
fn rooms_are_read(rt: HostRuntime) {
    let source = source(&rt);
    let rooms = source.rooms.entries.as_slice();
    expect!(rt; rooms.len() == 2);
    for room in rooms {
        let [north, _, _, west, _, _] = &room.what.exits;
        let found = (room.at, room.what.text.bytes());
        expect!(rt; found == (126, b"".as_slice()) || found == (153, b"hall".as_slice()));
        expect!(rt; room.at == 126 || matches!(&north.what, Ref::Name(_)));
        expect!(rt; room.at == 126 || matches!(&west.what, Ref::Number(7)));
    }
}

// Whether an opcode is the one that stands at its place.
fn is_op(op: &At<Op>) -> bool {
    match &op.what {
        Op::Say(message) => (op.at, message.at) == (344, 348),
        Op::Number(number) => (op.at, number.what) == (358, 90),
        Op::Named(number) => (op.at, *number) == (365, 64) || (op.at, *number) == (445, 52),
        Op::With(number, parameters) => {
            let found = (op.at, *number, parameters.as_slice().len());
            found == (371, 62, 2) || found == (385, 53, 1)
        }
    }
}

// Expects that a line stands at its place, with its conditions and opcodes at theirs.
fn expect_line(rt: &impl Abort, line: &At<LinePart>) {
    let (conds, ops) = (line.what.conds.as_slice(), line.what.ops.as_slice());
    let found = (line.at, conds.len(), ops.len());
    expect!(rt; found == (307, 2, 5) || found == (404, 0, 0) || found == (418, 1, 1));
    for cond in conds {
        let found = (cond.at, cond.what.code);
        expect!(rt; found == (321, 3) || found == (331, 0) || found == (428, 1));
    }
    for op in ops {
        expect!(rt; is_op(op));
    }
}

#[test]
fn lines_are_read(rt: HostRuntime) {
    let source = source(&rt);
    let lines = source.lines.entries.as_slice();
    expect!(rt; lines.len() == 3);
    for line in lines {
        expect_line(&rt, line);
    }
}

// Texts that are no source.
const REFUSED: &[(&[u8], SourceFault)] = &[
    (b"", SourceFault::Unexpected(0)),
    (b" # only a comment", SourceFault::Unexpected(17)),
    (b"header { unused 5a", SourceFault::Unexpected(17)),
    (b"header { unused -; }", SourceFault::Unexpected(16)),
    (b"header { unused 2147483648", SourceFault::BigNumber(16)),
    (b"header { unused -2147483649", SourceFault::BigNumber(16)),
    (b"Header {", SourceFault::Unexpected(0)),
    (
        b"header { unused 0; carry 0; start start",
        SourceFault::Unexpected(34),
    ),
    (
        b"header { unused 0; carry 0; start a23456789012345678901234567890123",
        SourceFault::LongName(34),
    ),
    (
        b"header { unused 0; carry 0; start a2345678901234567890123456789012 x",
        SourceFault::Unexpected(67),
    ),
    (
        b"header # comment\r{ unused\n\"x",
        SourceFault::OpenString(26),
    ),
];

#[test]
fn texts_are_refused(rt: HostRuntime) {
    for (bytes, fault) in REFUSED {
        expect!(rt; read_source(rt.alloc(), bytes).err() == Some(*fault));
    }
}

// Lines that are none.
const REFUSED_LINES: &[(&[u8], SourceFault)] = &[
    (b"also { } { look(1); } \"\";", SourceFault::Unexpected(322)),
    (
        b"also { } { get(1, 2); } \"\";",
        SourceFault::Unexpected(323),
    ),
    (b"also { } { put(1); } \"\";", SourceFault::Unexpected(323)),
    (b"also { } { get(); } \"\";", SourceFault::Unexpected(322)),
    (b"also { near; } { } \"\";", SourceFault::Unexpected(318)),
    (b"also { get 1; } { } \"\";", SourceFault::Unexpected(314)),
    (b"line near 1 { } { };", SourceFault::Unexpected(312)),
    (b"also { near get; } { };", SourceFault::Unexpected(319)),
    (b"also { } { op look; };", SourceFault::Unexpected(321)),
    (b"never { } { };", SourceFault::Unexpected(307)),
    (
        b"also { } { };\n} trailer { 1 2 3 } more",
        SourceFault::Unexpected(341),
    ),
    (
        b"also { } { };\n} trailer { 1 2 3 } 99999999999",
        SourceFault::BigNumber(341),
    ),
];

#[test]
fn lines_are_refused(rt: HostRuntime) {
    for (lines, fault) in REFUSED_LINES {
        expect!(rt; read(&rt, lines).err() == Some(*fault));
    }
}

#[test]
fn a_long_string_is_refused(rt: HostRuntime) {
    let mut bytes = vec![in rt.alloc(); b'x'; 4098].expect(&rt, "memory");
    bytes[0] = b'"';
    expect!(rt; read_source(rt.alloc(), &bytes).err() == Some(SourceFault::LongString(0)));
    bytes[4097] = b'"';
    expect!(rt; read_source(rt.alloc(), &bytes).err() == Some(SourceFault::Unexpected(0)));
}

#[test]
fn words_are_told_by_their_numbers(rt: HostRuntime) {
    expect!(rt; condition_word(0) == b"param".as_slice());
    expect!(rt; condition_word(19) == b"counter_is".as_slice());
    expect!(rt; opcode_word(52) == b"get".as_slice());
    expect!(rt; opcode_word(89) == b"picture".as_slice());
}
