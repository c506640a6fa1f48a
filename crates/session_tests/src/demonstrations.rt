//! Demonstrations of made games.
use crate::expect;
use adv_demo::demonstration;
use adv_io::Memory;
use std::process::Abort;

// The first line that is said of a game, and the end of its play. The games of 8, 33 and 120.
struct Expected {
    game: &'static [u8],
    end: &'static [u8],
}

const EXPECTED: [Expected; 3] = [
    Expected {
        game: b"demo 8: rooms 9, items 16, lines 45\n",
        end: b"lines 80, draws 729, end line, room 5, light 45",
    },
    Expected {
        game: b"demo 33: rooms 34, items 66, lines 170\n",
        end: b"lines 330, draws 11254, end line, room 30, light -1",
    },
    Expected {
        game: b"demo 120: rooms 121, items 240, lines 605\n",
        end: b"lines 49, draws 5929, end over 2, room 29, light 89",
    },
];

// What follows this text.
fn after<'a>(text: &'a [u8], first: &[u8]) -> &'a [u8] {
    match text.strip_prefix(first) {
        Some(rest) => rest,
        None => b"",
    }
}

// The play and the run end alike, and the run used at least one step.
fn expect_demonstration<R: Abort>(rt: &R, said: Result<Vec<u8>, Memory>, expected: &Expected) {
    let said = said.expect(rt, "memory");
    let play = after(after(&said, expected.game), b"play: ");
    let run = after(after(after(play, expected.end), b"\n"), b"run: ");
    let steps = after(after(run, expected.end), b", steps ");
    expect!(rt; matches!(steps, [b'1'..=b'9', .., b'\n']));
}

#[test]
fn the_least_game(rt: HostRuntime) {
    expect_demonstration(&rt, demonstration(rt.alloc(), 8), &EXPECTED[0]);
}

#[test]
fn the_game_of_33(rt: HostRuntime) {
    expect_demonstration(&rt, demonstration(rt.alloc(), 33), &EXPECTED[1]);
}

#[test]
fn the_greatest_game(rt: HostRuntime) {
    expect_demonstration(&rt, demonstration(rt.alloc(), 120), &EXPECTED[2]);
}
