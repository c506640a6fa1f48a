//! Sources that mean a database, and those that are refused, with ample memory.
use crate::expect;
use adv_compiler::{CompileFault, compile};
use scott_types::Db;
use source_reader::read_source;
use std::process::Abort;

const HEADER: &[u8] = b"header {
unused 0;
carry 5;
start r1;
treasures 0;
length 3;
light -1;
home 0;
}
";

const WORDS: &[u8] = b"words {
\"AUT\" \"ANY\";
\"GO\" \"NORTH\";
\"*WALK\" \"SOUTH\";
\"LOOK\" \"EAST\";
\"\" \"WEST\";
\"\" \"UP\";
\"\" \"DOWN\";
}
";

const ROOMS: &[u8] = b"rooms {
room r0 \"\": 0, 0, 0, 0, 0, 0;
room r1 \"hall\": r2, 0, 0, 0, 0, 0;
room r2 \"*I'm on a hill\": 0, r1, 0, 0, 0, 0;
}
";

const MESSAGES_AND_ITEMS: &[u8] = b"messages {
message m0 \"\";
}
items {
item i0 \"Rug\": r1;
}
";

const TRAILER: &[u8] = b"
}
trailer {
416 1 0
}
";

const NO_ACTION: &[u8] = b"also { } { } \"\";";

// What the source with this header, these rooms and this line means.
fn compiled<R: Abort + AllocGlobal>(
    rt: &R,
    header: &[u8],
    rooms: &[u8],
    line: &[u8],
) -> Result<Db, CompileFault> {
    let lines = b"lines {\n".as_slice();
    let pieces = [
        header,
        WORDS,
        rooms,
        MESSAGES_AND_ITEMS,
        lines,
        line,
        TRAILER,
    ];
    let text = pieces.concat(rt.alloc()).expect(rt, "memory");
    let source = read_source(rt.alloc(), &text).expect(rt, "a source");
    compile(rt.alloc(), &source)
}

// The database that a source with this line means.
fn database<R: Abort + AllocGlobal>(rt: &R, line: &[u8]) -> Db {
    compiled(rt, HEADER, ROOMS, line).expect(rt, "a database")
}

#[test]
fn a_source_means_its_database(rt: HostRuntime) {
    let db = database(&rt, NO_ACTION);
    let parts = db.parts();
    let header = &parts.header;
    expect!(rt; (header.unused, header.carry, header.start) == (0, 5, 1));
    expect!(rt; (header.treasures, header.length) == (0, 3));
    expect!(rt; (header.light, header.home) == (-1, 0));
    expect!(rt; (parts.words.len(), parts.rooms.len()) == (7, 3));
    expect!(rt; (parts.messages.len(), parts.items.len()) == (1, 1));
    let trailer = &parts.trailer;
    expect!(rt; (trailer.version, trailer.adventure, trailer.third) == (416, 1, 0));
}

#[test]
fn a_source_means_its_item_and_comment(rt: HostRuntime) {
    let db = database(&rt, NO_ACTION);
    let parts = db.parts();
    expect!(rt; (parts.items.len(), parts.comments.len()) == (1, 1));
    for item in &parts.items {
        expect!(rt; (item.place, item.text.bytes()) == (1, b"Rug".as_slice()));
    }
    for comment in &parts.comments {
        expect!(rt; comment.bytes().is_empty());
    }
}

// Lines, and the numbers of the actions that they mean.
const ACTIONS: &[(&[u8], u32, [u32; 5], [u32; 2])] = &[
    (
        b"line \"LOOK\" \"WEST\" { near i0; at r2; } { say 52; look; put(i0, r2); } \"done\";",
        454,
        [3, 44, 0, 40, 0],
        [15364, 9300],
    ),
    (
        b"also { carried i0; param 7; } { get(r2); drop; };",
        0,
        [1, 140, 40, 0, 0],
        [7853, 0],
    ),
    (
        b"auto 30 { } { op 101; say 51; say 52; op 149; } \"x\";",
        30,
        [0, 0, 0, 0, 0],
        [15201, 15449],
    ),
    (NO_ACTION, 0, [0, 0, 0, 0, 0], [0, 0]),
];

#[test]
fn lines_mean_actions(rt: HostRuntime) {
    for (line, vocab, conds, pairs) in ACTIONS {
        let db = database(&rt, line);
        let actions = &db.parts().actions;
        expect!(rt; actions.len() == 1);
        for action in actions {
            expect!(rt; (action.vocab, action.conds, action.pairs) == (*vocab, *conds, *pairs));
        }
    }
}

// Lines that mean no action.
const REFUSED_LINES: &[(&[u8], CompileFault)] = &[
    (
        b"also { param 0; param 0; param 0; param 0; param 0; param 0; } { } \"\";",
        CompileFault::TooManyConditions(418),
    ),
    (
        b"also { } { op 0; op 0; op 0; op 0; op 0; } \"\";",
        CompileFault::TooManyOpcodes(401),
    ),
    (b"line 3 150 { } { } \"\";", CompileFault::Limit(373, 150)),
    (
        b"also { } { say nosuch; } \"\";",
        CompileFault::Unnamed(381),
    ),
    (b"line \"look\" 0 { } { };", CompileFault::Unnamed(371)),
    (b"line -1 0 { } { };", CompileFault::Limit(371, -1)),
    (
        b"line 14316558 0 { } { };",
        CompileFault::Limit(371, 14316558),
    ),
    (b"auto 150 { } { };", CompileFault::Limit(371, 150)),
    (
        b"also { near 107374183; } { };",
        CompileFault::Limit(378, 107374183),
    ),
    (b"also { } { say 0; };", CompileFault::Limit(381, 0)),
    (
        b"also { } { op 1; op 150; };",
        CompileFault::Limit(386, 150),
    ),
    (
        b"also { carried i0; carried i0; carried i0; carried i0; } { put(i0, nosuch); };",
        CompileFault::Unnamed(433),
    ),
    (
        b"also { carried i0; carried i0; carried i0; carried i0; } { put(i0, r1); };",
        CompileFault::TooManyConditions(433),
    ),
];

#[test]
fn lines_are_refused(rt: HostRuntime) {
    for (line, fault) in REFUSED_LINES {
        expect!(rt; compiled(&rt, HEADER, ROOMS, line).err() == Some(*fault));
    }
}

// Headers and rooms that mean nothing.
const REFUSED: &[(&[u8], &[u8], CompileFault)] = &[
    (
        b"header {\nunused 0;\ncarry 5;\nstart r9;\ntreasures 0;\nlength 3;\nlight -1;\nhome 0;\n}\n",
        ROOMS,
        CompileFault::Unnamed(34),
    ),
    (
        b"header { unused 0; carry 5; start 3; treasures 0; length 3; light -1; home 0; }",
        ROOMS,
        CompileFault::Limit(34, 3),
    ),
    (
        b"header { unused 0; carry 5; start 0; treasures 0; length 21; light -1; home 0; }",
        ROOMS,
        CompileFault::Limit(57, 21),
    ),
    (
        HEADER,
        b"rooms { room r1 \"\": 0, 0, 0, 0, 0, 0; room r1 \"\": 0, 0, 0, 0, 0, 0; }",
        CompileFault::Twice(224),
    ),
];

#[test]
fn headers_and_rooms_are_refused(rt: HostRuntime) {
    for (header, rooms, fault) in REFUSED {
        expect!(rt; compiled(&rt, header, rooms, NO_ACTION).err() == Some(*fault));
    }
}
