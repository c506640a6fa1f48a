//! What a console gets by a look, a list, the score and the light.
ghost use Rattle.scott_types.specs.State.{Fits};

use crate::consoles::console;
use crate::expect;
use crate::games::game;
use adv_io::{ConsoleFault, MemoryConsole};
use itoa::Buffer;
use scott_light::{count_light, inventory, look, look_after, score};
use scott_types::{Db, State, Style};
use std::alloc::AllocError;
use std::process::Abort;

// A hall with a cave to the south.
const ROOMS: &[u8] = b" 0 0 0 0 0 0 0 0 \"AUT\" \"ANY\"
0 0 0 0 0 0 \"\"
0 2 0 0 1 0 \"hall\"
0 0 0 0 0 0 \"*A cave\"
\"\"
";

// The gold is the one treasure, and the lamp has the number 9.
const ITEMS: &[u8] = b"\"*Gold bar*/GOLD/\" 1 \"Pin\" 255 \"Bug\" 255
\"\" 0 \"\" 0 \"\" 0 \"\" 0 \"\" 0 \"\" 0 \"Lamp/LAMP/\" 1
";

const TRAILER: &[u8] = b"\"\" 1 1 0";

// The game, with how long the light lasts and the treasure room.
fn hall<R: Abort + AllocGlobal>(rt: &R, light: &[u8], home: &[u8]) -> Db {
    let header = b"0 9 0 0 2 5 1 1 3 ".as_slice();
    game(rt, &[header, light, b" 0 ", home, ROOMS, ITEMS, TRAILER])
}

// What is asked for.
#[derive(Clone, Copy)]
enum Asked {
    Look,
    LookAfter(&'static [u8]),
    Inventory,
    Score,
}

// Has what is asked for said. It answers whether that ends the game.
fn tell(
    asked: Asked,
    db: &Db,
    style: Style,
    state: &State,
    console: &mut MemoryConsole,
) -> Result<bool, ConsoleFault>
    requires { Fits db.now state.now }
{
    let answer = match asked {
        Asked::Look => look(db, style, state, console),
        Asked::LookAfter(text) => look_after(text, db, style, state, console),
        Asked::Inventory => inventory(db, style, state, console),
        Asked::Score => return score(db, style, state, console),
    };
    answer.and(Ok(false))
}

const PLAIN: Style = Style {
    you: false,
    counted: false,
    vanish: false,
};

const YOU: Style = Style {
    you: true,
    counted: false,
    vanish: false,
};

// What is asked for, in which style, the treasure room, the room and whether it is dark, whether
// the game ends, and what is said.
const TOLD: &[(Asked, Style, &[u8], (u8, bool), bool, &str)] = &[
    (
        Asked::Look,
        PLAIN,
        b"0",
        (1, false),
        false,
        "I'm in a hall\nObvious exits: South, Up.\n\nI can also see: *Gold bar* - Lamp\n",
    ),
    (
        Asked::Look,
        PLAIN,
        b"0",
        (2, false),
        false,
        "A cave\nObvious exits: none.\n",
    ),
    (
        Asked::Look,
        PLAIN,
        b"0",
        (2, true),
        false,
        "I can't see. It is too dark!\n",
    ),
    (
        Asked::LookAfter(b"Woe! "),
        PLAIN,
        b"0",
        (2, false),
        false,
        "Woe! A cave\nObvious exits: none.\n",
    ),
    (
        Asked::LookAfter(b"Woe! "),
        PLAIN,
        b"0",
        (2, true),
        false,
        "Woe! I can't see. It is too dark!\n",
    ),
    (
        Asked::Inventory,
        PLAIN,
        b"0",
        (1, false),
        false,
        "I'm carrying:\nPin - Bug.\n",
    ),
    (
        Asked::Score,
        PLAIN,
        b"0",
        (1, false),
        false,
        "I've stored 0 treasures.  On a scale of 0 to 100, that rates 0.\n",
    ),
    (
        Asked::Score,
        PLAIN,
        b"1",
        (1, false),
        true,
        "I've stored 1 treasures.  On a scale of 0 to 100, that rates 100.\nWell done.\nThe game is now over.\n",
    ),
    // The texts of the second person, each where it is said.
    (
        Asked::Look,
        YOU,
        b"0",
        (1, false),
        false,
        "You are in a hall\nObvious exits: South, Up.\n\nYou can also see: *Gold bar* - Lamp\n",
    ),
    (
        Asked::Inventory,
        YOU,
        b"0",
        (1, false),
        false,
        "You are carrying:\nPin - Bug.\n",
    ),
    (
        Asked::Score,
        YOU,
        b"0",
        (1, false),
        false,
        "You have stored 0 treasures.  On a scale of 0 to 100, that rates 0.\n",
    ),
];

#[test]
fn players_are_told_what_they_ask_for(rt: HostRuntime) {
    for (asked, style, home, (room, dark), over, said) in TOLD {
        let db = hall(&rt, b"-1", home);
        let mut state = State::start(&db);
        state.room = *room;
        state.flags[15] = *dark;
        expect!(rt; state.fits(&db), said);
        let mut console = console(&rt, &[], 500);
        expect!(rt; tell(*asked, &db, *style, &state, &mut console) == Ok(*over), said);
        expect!(rt; console.said() == said.as_bytes(), said);
    }
}

// A text that is said alone.
const LONG: &[u8] = &[b'x'; 1100];

// What is shown of the thing of a number.
fn add_thing(bytes: &mut Vec<u8>, number: u8) -> Result<(), AllocError> {
    if number % 100 == 7 {
        bytes.extend_from_slice(LONG)
    } else {
        bytes.extend_from_slice(Buffer::new().format(number).as_bytes())?;
        bytes.extend_from_slice(b" in a long row of things")
    }
}

// So many things, with a text before the first, between two of them, and after the last.
fn things<R: Abort + AllocGlobal>(
    rt: &R,
    count: u8,
    before: &[u8],
    between: &[u8],
    after: &[u8],
) -> Vec<u8> {
    let mut bytes = before.to_vec(rt.alloc()).expect(rt, "memory");
    for number in 0..count {
        if number > 0 {
            bytes.extend_from_slice(between).expect(rt, "memory");
        }
        add_thing(&mut bytes, number).expect(rt, "memory");
    }
    bytes.extend_from_slice(after).expect(rt, "memory");
    bytes
}

// A game with so many things in the hall.
fn crowded<R: Abort + AllocGlobal>(rt: &R, count: u8) -> Db {
    let items = things(rt, count, b"\"", b"/THI/\" 1\n\"", b"/THI/\" 1\n");
    let mut highest = Buffer::new();
    let highest = highest.format(count.saturating_sub(1)).as_bytes();
    let rest = b" 0 0 2 5 1 0 3 -1 0 0".as_slice();
    game(rt, &[b"0 ", highest, rest, ROOMS, &items, TRAILER])
}

// What a look says before them.
const SEEN: &[u8] = b"I'm in a hall\nObvious exits: South, Up.\n\nI can also see: ";

// How many things there are, the calls of the console that fail, and what a look answers.
const CROWDS: &[(u8, &[u64], Result<(), ConsoleFault>)] = &[
    (1, &[], Ok(())),
    (3, &[], Ok(())),
    (255, &[], Ok(())),
    // Only a long look takes several calls.
    (3, &[2], Ok(())),
    (255, &[2], Err(ConsoleFault::Failed)),
];

// All things are said where the console doesn't fail.
#[test]
fn all_items_of_a_room_are_said(rt: HostRuntime) {
    for (count, failing, answer) in CROWDS {
        let db = crowded(&rt, *count);
        let mut console = console(&rt, failing, 20_000);
        expect!(rt; look(&db, PLAIN, &State::start(&db), &mut console) == *answer);
        let seen = things(&rt, *count, SEEN, b" - ", b"\n");
        expect!(rt; answer.is_err() || console.said() == seen.as_slice());
    }
}

const COUNTED: Style = Style {
    you: false,
    counted: true,
    vanish: false,
};

const VANISHING: Style = Style {
    you: false,
    counted: true,
    vanish: true,
};

// How long the light lasts before a turn, and in which style; how long after it, whether it is out
// and where the lamp is then, and what is said.
const LIGHTS: &[(&[u8], Style, (i32, bool, u8), &str)] = &[
    (b"-1", PLAIN, (-1, false, 1), ""),
    (b"26", PLAIN, (25, false, 1), ""),
    (b"21", PLAIN, (20, false, 1), "Your light is growing dim. "),
    (b"1", PLAIN, (0, true, 1), "Your light has run out. "),
    (b"26", VANISHING, (25, false, 1), ""),
    (
        b"25",
        VANISHING,
        (24, false, 1),
        "Your light runs out in 24 turns. ",
    ),
    (
        b"21",
        COUNTED,
        (20, false, 1),
        "Your light runs out in 20 turns. ",
    ),
    (
        b"2",
        VANISHING,
        (1, false, 1),
        "Your light runs out in 1 turns. ",
    ),
    (b"1", COUNTED, (0, true, 1), "Your light has run out. "),
    (b"1", VANISHING, (0, true, 0), "Your light has run out. "),
];

#[test]
fn light_burns_down_and_is_counted(rt: HostRuntime) {
    for (light, style, left, said) in LIGHTS {
        let db = hall(&rt, light, b"0");
        let mut state = State::start(&db);
        state.redraw = false;
        let mut console = console(&rt, &[], 500);
        expect!(rt; count_light(&db, *style, &mut state, &mut console) == Ok(()), said);
        expect!(rt; console.said() == said.as_bytes(), said);
        expect!(rt; (state.light, state.flags[16], state.place(9)) == *left, said);
        expect!(rt; !state.redraw, said);
    }
}
