//! Rooms and messages.
ghost use Rattle.std.specs.Prelude.{◌≡◌, ◌≤◌, ◌<◌, pos, IfOk, OnOk};
ghost use Rattle.adv_gen.specs.Picks.{after, pick};
ghost use Rattle.adv_gen.specs.Rooms.{room_opening, room_text, exits};

use crate::parts::Part;
use crate::picks::Picks;
use crate::texts::text;
use adv_io::Memory;
use itoa::Buffer;
use scott_types::{Room, Text};
use std::alloc::Global;

// An exit to any room, or none.
fn exit(rooms: u16, picks: &mut Picks) -> i32
    requires { 1 ≤ rooms }
    ensures made { result ≡ pos (pick picks.old 0 rooms) }
    ensures next { picks.new ≡ after 1 picks.old }
{
    i32::from(picks.pick(rooms))
}

fn exits(size: u16, picks: &mut Picks) -> [i32; 6]
    requires { size ≤ 120 }
    ensures made { result ≡ exits size picks.old }
    ensures next { picks.new ≡ after 6 picks.old }
{
    let rooms = size + 1;
    [
        exit(rooms, picks),
        exit(rooms, picks),
        exit(rooms, picks),
        exit(rooms, picks),
        exit(rooms, picks),
        exit(rooms, picks),
    ]
}

// Every seventh text is said alone.
fn room_opening(k: u16) -> &'static [u8]
    ensures { result.now ≡ room_opening k }
{
    if k % 7 == 6 {
        b"*I'm at place "
    } else {
        b"room "
    }
}

#[tactic(auto, unfolding(crate::specs::Rooms::room_text))]
fn room_text(alloc: Global, k: u16) -> Result<Text, Memory>
    ensures { IfOk result (λ text. text ≡ room_text k) }
{
    let mut digits = Buffer::new();
    text(alloc, &[room_opening(k), digits.format(k).as_bytes()])
}

impl Part for Room {
    ghost use Rattle.adv_gen.specs.Rooms.{room, room_picks};

    ghost part = { room };

    ghost taken = { room_picks };

    fn make(alloc: Global, size: u16, number: u16, picks: &mut Picks) -> Result<Room, Memory> {
        let exits = exits(size, picks);
        let text = room_text(alloc, number)?;
        Ok(Room { exits, text })
    }
}

impl Part for Text {
    ghost use Rattle.adv_gen.specs.Rooms.{message};

    ghost part = { λ _ k _. message k };

    ghost taken = { λ _. 0 };

    #[tactic(auto, unfolding(crate::specs::Rooms::message))]
    fn make(alloc: Global, _size: u16, number: u16, _picks: &mut Picks) -> Result<Text, Memory> {
        let mut digits = Buffer::new();
        text(
            alloc,
            &[b"This is message ", digits.format(number).as_bytes(), b"."],
        )
    }
}
