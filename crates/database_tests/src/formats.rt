//! Texts of databases that are read and written back, and those that are refused.
use crate::expect;
use crate::games::{game, joined, read};
use scott_format::{Field, FormatFault, write_db};
use scott_types::{Action, Header, Item};
use std::process::Abort;

const HEADER: &[u8] = b"0 0 0 6 2 5 1 0 3 -1 0 0\n";

const ACTION: &[u8] = b"0 0 0 0 0 0 0 0\n";

const LISTS: &[u8] = b"\"AUT\" \"ANY\"
\"GO\" \"NORTH\"
\"*WALK\" \"SOUTH\"
\"LOOK\" \"EAST\"
\"\" \"WEST\"
\"\" \"UP\"
\"\" \"DOWN\"
0 0 0 0 0 0 \"\"
2 0 0 0 0 0 \"hall\"
0 1 0 0 0 0 \"*I'm on a hill\"
\"\"
";

const ITEM: &[u8] = b"\"Rug\" 1\n";

// A comment and the trailer.
const END: &[u8] = b"\"\"\n416 1 0\n";

// An item, the end of a game, and the item as it is written back.
const TEXTS: &[(&[u8], &[u8], &[u8])] = &[
    (ITEM, END, ITEM),
    (ITEM, b"\"\"\n416 1", ITEM),
    (ITEM, b"\"\"\n416 1 +00 0 and more", ITEM),
    (b"  \"Rug\"\r\n-1 ", END, b"\"Rug\" 255\n"),
];

#[test]
fn texts_are_read_and_written_back(rt: HostRuntime) {
    for (item, end, written) in TEXTS {
        let db = game(&rt, &[HEADER, ACTION, LISTS, item, end]);
        let text = write_db(rt.alloc(), &db).expect(&rt, "memory");
        let want = joined(&rt, &[HEADER, ACTION, LISTS, written, END]);
        expect!(rt; text.as_slice() == want.as_slice());
    }
}

fn expect_numbers(rt: &impl Abort, numbers: &Header) {
    let wide = [
        numbers.unused,
        numbers.carry,
        numbers.treasures,
        numbers.light,
        numbers.home,
    ];
    expect!(rt; wide == [-7, -5, 13, 125, 77]);
    expect!(rt; (numbers.start, numbers.length) == (1, 20));
}

fn expect_lines(rt: &impl Abort, lines: &[Action]) {
    for line in lines {
        expect!(rt; line.vocab == 151 && line.conds == [1, 2, 3, 4, 5] && line.pairs == [6, 7]);
    }
}

fn expect_items(rt: &impl Abort, items: &[Item]) {
    for item in items {
        expect!(rt; item.text.bytes() == b"a\"b\"".as_slice() && item.place == 3);
    }
}

#[test]
fn parts_are_in_their_places(rt: HostRuntime) {
    let header = b"-7 0 0 6 2 -5 1 +13 20 125 0 77\n151 1 2 3 4 5 6 7\n".as_slice();
    let rest = b"\"a\"\"b`\" 259 \"\"\n1 2 3 4".as_slice();
    let db = game(&rt, &[header, LISTS, rest]);
    let parts = db.parts();
    expect_numbers(&rt, &parts.header);
    expect_lines(&rt, &parts.actions);
    expect_items(&rt, &parts.items);
    expect!(rt; (parts.words.len(), parts.rooms.len()) == (7, 3));
    expect!(rt; (parts.trailer.version, parts.trailer.third) == (1, 3));
}

// A header, an action line, the end of a game, and the first fault of the game that they make.
const REFUSED: &[(&[u8], &[u8], &[u8], FormatFault)] = &[
    (
        b"0 0 0 6 255 5 1 0 3 -1 0 0\n",
        ACTION,
        END,
        FormatFault::Limit(Field::HighestRoom, 255),
    ),
    (
        b"0 255 x",
        ACTION,
        END,
        FormatFault::Limit(Field::HighestItem, 255),
    ),
    (
        b"0 0 -1 0 0 0 3 0 3 -1 0 0\n",
        ACTION,
        END,
        FormatFault::Limit(Field::HighestAction, -1),
    ),
    (
        b"0 0 0 1000 ",
        ACTION,
        END,
        FormatFault::Limit(Field::HighestWord, 1000),
    ),
    (
        b"0 0 0 6 2 5 3 0 3 -1 0 0\n",
        ACTION,
        END,
        FormatFault::NoStart(3),
    ),
    (
        b"0 0 0 6 2 5 1 0 0 -1 0 0\n",
        ACTION,
        END,
        FormatFault::Limit(Field::WordLength, 0),
    ),
    (
        b"0 0 0 6 2 5 1 0 3 -2 0 0\n",
        ACTION,
        END,
        FormatFault::Limit(Field::LightTime, -2),
    ),
    (
        b"0 0 0 6 2 5 1 0 3 -1 1000 0\n",
        ACTION,
        END,
        FormatFault::Limit(Field::HighestMessage, 1000),
    ),
    (b" x", ACTION, END, FormatFault::NoNumber(1)),
    (
        HEADER,
        b"0 0 0 0 0 0 0 -1\n",
        END,
        FormatFault::NegativeAction(0),
    ),
    (
        HEADER,
        b"0 0 0 0 0 0 0 0 0\n",
        END,
        FormatFault::NoQuote(41),
    ),
    (
        HEADER,
        ACTION,
        b"\"\"\n416 1 2147483648",
        FormatFault::BigNumber(207),
    ),
    (HEADER, ACTION, b"\"\"\n416 x", FormatFault::NoNumber(205)),
    // A comment that is cut off after its quote.
    (HEADER, ACTION, b"\"", FormatFault::OpenString(198)),
];

#[test]
fn parts_are_refused(rt: HostRuntime) {
    for (header, action, end, fault) in REFUSED {
        let game = read(&rt, &[header, action, LISTS, ITEM, end]);
        expect!(rt; game.err() == Some(*fault));
    }
    expect!(rt; read(&rt, &[]).err() == Some(FormatFault::NoNumber(0)));
}
