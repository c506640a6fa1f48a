//! What actions do, in a hall with a rug and a pin that is carried, where one item can be carried.
use crate::consoles::console;
use crate::expect;
use crate::games::game;
use adv_io::ConsoleFault;
use scott_actions::{Ran, perform};
use scott_types::{State, Style};

const HEADER: &[u8] = b"0 1 0 0 0 1 0 0 3 -1 1 0\n0 ";

const LISTS: &[u8] = b" \"AUT\" \"ANY\" 0 0 0 0 0 0 \"hall\" \"\" \"Hello\"
\"Rug\" 0 \"Pin\" 255 \"\" 1 1 0";

// An action's numbers, what becomes of it, whether the room is described next, and what is said.
const ACTIONS: &[(&[u8], (Result<Ran, ConsoleFault>, bool), &str)] = &[
    (b"0 0 0 0 0 0 0", (Ok(Ran::Passed(false)), false), ""),
    (
        b"0 0 0 0 0 73 150",
        (Ok(Ran::Passed(true)), false),
        "Hello\n",
    ),
    (
        b"655340 20 0 0 0 11932 11786",
        (Ok(Ran::Passed(false)), false),
        "32767\n",
    ),
    (
        b"0 0 0 0 0 12685 0",
        (Ok(Ran::Passed(false)), false),
        "gogo\n",
    ),
    (b"22 0 0 0 0 150 0", (Ok(Ran::Not), false), ""),
    (
        b"0 0 0 0 0 9971 0",
        (Ok(Ran::Passed(false)), false),
        "I'm carrying:\nPin.\n[Saving is left out.]\n",
    ),
    (
        b"0 0 0 0 0 9813 150",
        (Ok(Ran::Over(1)), false),
        "I've stored 0 treasures.  On a scale of 0 to 100, that rates 0.\nThe game is now over.\n",
    ),
    (
        b"0 0 0 0 0 9150 0",
        (Ok(Ran::Passed(false)), false),
        "I am dead.\nI'm in a hall\nObvious exits: none.\n\nI can also see: Rug\n",
    ),
    // A refused get leaves its parameter to the next opcode.
    (
        b"0 20 0 0 0 7859 0",
        (Ok(Ran::Passed(false)), true),
        "I've too much to carry! ",
    ),
];

// An action is done in a room that was described, and moves no item.
#[test]
fn actions_do_their_opcodes(rt: HostRuntime) {
    for (action, becomes, said) in ACTIONS {
        let db = game(&rt, &[HEADER, action, LISTS]);
        let _limits = db.parts();
        let mut state = State::start(&db);
        state.redraw = false;
        let mut console = console(&rt, &[], 500);
        let answer = perform(&db, Style::plain(), &mut state, 0, b"go", &mut console);
        expect!(rt; (answer, state.redraw) == *becomes, said);
        expect!(rt; state.places.as_slice() == [0, 255].as_slice(), said);
        expect!(rt; console.said() == said.as_bytes(), said);
    }
}
