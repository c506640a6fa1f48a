//! Games that are made from numbers.
use crate::expect;
use adv_gen::make;
use adv_io::{Line, Memory};
use scott_format::write_db;
use scott_types::{Action, Db};
use std::process::Abort;

// Of a game: how many rooms, items, actions, words, messages and lines there are, and how many
// treasures; the exits of the last room and the last item; the action after the first; the lines
// that are typed first; and the checksums of the database's text and of all lines.
struct Expected {
    sizes: [usize; 6],
    treasures: i32,
    exits: [i32; 6],
    item: (&'static [u8], u8),
    action: (u32, [u32; 5], [u32; 2]),
    lines: [&'static [u8]; 4],
    text_sum: u32,
    lines_sum: u32,
}

// The games of 8, 9, 57 and 120.
const GAMES: [Expected; 4] = [
    Expected {
        sizes: [9, 16, 45, 45, 27, 80],
        treasures: 2,
        exits: [7, 6, 7, 1, 3, 3],
        item: (b"*thing 15/XAW/", 3),
        action: (1235, [228, 243, 120, 120, 180], [352, 11173]),
        lines: [b"down", b"get xam", b"drop all", b"vaf xau"],
        text_sum: 0xb8206caa,
        lines_sum: 0x3081cb49,
    },
    Expected {
        sizes: [10, 18, 50, 46, 29, 90],
        treasures: 2,
        exits: [1, 4, 6, 5, 0, 1],
        item: (b"thing 17/XAY/", 4),
        action: (2123, [208, 271, 160, 100, 140], [12377, 11623]),
        lines: [b"down", b"get xaj", b"drop all", b"vai xau"],
        text_sum: 0x1f72ae6b,
        lines_sum: 0x37d0c326,
    },
    Expected {
        sizes: [58, 114, 290, 94, 125, 570],
        treasures: 14,
        exits: [31, 50, 56, 49, 1, 57],
        item: (b"thing 113/XBH/", 25),
        action: (4537, [110, 110, 60, 280, 20], [9374, 11773]),
        lines: [b"east", b"get xam", b"drop all", b"vad xaz"],
        text_sum: 0x264e59b8,
        lines_sum: 0x29d596b9,
    },
    Expected {
        sizes: [121, 240, 605, 157, 251, 1200],
        treasures: 30,
        exits: [10, 57, 59, 115, 17, 11],
        item: (b"*thing 239/XDS/", 90),
        action: (8957, [271, 245, 100, 260, 220], [202, 11623]),
        lines: [b"south", b"get xcx", b"drop all", b"vaj xbp"],
        text_sum: 0xee647398,
        lines_sum: 0x69315dd3,
    },
];

// A checksum goes on with these bytes.
fn checksum(sum: u32, bytes: &[u8]) -> u32 {
    let mut sum = sum;
    for byte in bytes {
        sum = sum.wrapping_mul(31).wrapping_add(u32::from(*byte));
    }
    sum
}

fn expect_lines<R: Abort + AllocGlobal>(rt: &R, lines: &[Line], expected: &Expected) {
    let mut sum = 0;
    for line in lines {
        sum = checksum(checksum(sum, line.bytes()), b"\n");
    }
    expect!(rt; sum == expected.lines_sum);
    for (line, first) in lines.iter().zip(&expected.lines) {
        expect!(rt; line.bytes() == *first);
    }
}

fn expect_action<R: Abort + AllocGlobal>(rt: &R, action: &Action, expected: &Expected) {
    let (vocab, conds, pairs) = expected.action;
    expect!(rt; action.vocab == vocab && action.conds == conds && action.pairs == pairs);
}

fn expect_database<R: Abort + AllocGlobal>(rt: &R, db: &Db, expected: &Expected) {
    expect!(rt; db.header().treasures == expected.treasures);
    if let [.., room] = db.rooms() {
        expect!(rt; room.exits == expected.exits);
    }
    if let [.., item] = db.items() {
        expect!(rt; item.text.bytes() == expected.item.0 && item.place == expected.item.1);
    }
    if let [_, action, ..] = db.actions() {
        expect_action(rt, action, expected);
    }
    let text = write_db(rt.alloc(), db).expect(rt, "memory");
    expect!(rt; checksum(0, text.as_slice()) == expected.text_sum);
}

fn expect_game<R: Abort + AllocGlobal>(
    rt: &R,
    made: Result<(Db, Vec<Line>), Memory>,
    expected: &Expected,
) {
    let (db, lines) = made.expect(rt, "memory");
    let sizes = [
        db.rooms().len(),
        db.items().len(),
        db.actions().len(),
        db.words().len(),
        db.messages().len(),
        lines.len(),
    ];
    expect!(rt; sizes == expected.sizes);
    expect_database(rt, &db, expected);
    expect_lines(rt, lines.as_slice(), expected);
}

#[test]
fn numbers_make_their_games(rt: HostRuntime) {
    expect_game(&rt, make(rt.alloc(), 8), &GAMES[0]);
    expect_game(&rt, make(rt.alloc(), 9), &GAMES[1]);
    expect_game(&rt, make(rt.alloc(), 57), &GAMES[2]);
    expect_game(&rt, make(rt.alloc(), 120), &GAMES[3]);
}
