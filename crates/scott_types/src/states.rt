//! The state of a play.
ghost use Rattle.std.specs.Prelude.{◌≡◌, ◌≤◌, length, map};
ghost use Rattle.scott_types.specs.Database.{place_of_item};

use crate::databases::Db;
use crate::parts::Item;
use arrayvec::ArrayVec;

/// What a play knows besides the database. docs/TURN.md says what each part is for.
#[derive(Drop)]
pub struct State {
    pub room: u8,
    /// The room that is exchanged by an opcode.
    pub saved: u8,
    /// The backup rooms.
    pub rooms: [u8; 16],
    /// -1..32767.
    pub counter: i16,
    /// The backup counters.
    pub counters: [i16; 16],
    pub flags: [bool; 32],
    /// How many turns the light still lasts; -1 is for ever, or spent.
    pub light: i32,
    /// Where each item is: a room, 0 for out of the game, or 255 for carried.
    pub places: ArrayVec<u8, 255>,
    /// Whether the room is described when the next step begins.
    pub redraw: bool,
}

impl State {
    ghost use Rattle.std.specs.Prelude.{◌≡◌, ◌↔◌, IsTrue};
    ghost use Rattle.scott_types.specs.State.{start, Fits};

    /// The state in which a game starts.
    pub fn start(db: &Db) -> State
        ensures value { result ≡ start db.now }
        ensures fits { Fits db.now result }
    {
        let parts = db.parts();
        State {
            room: parts.header.start,
            saved: 0,
            rooms: [0; 16],
            counter: 0,
            counters: [0; 16],
            flags: [false; 32],
            light: parts.header.light,
            places: start_places(&parts.items),
            redraw: true,
        }
    }
}

// The place of each item, in order.
fn start_places(items: &[Item]) -> ArrayVec<u8, 255>
    requires { length items.now ≤ 255 }
    ensures { result.items ≡ map place_of_item items.now }
{
    let mut places = ArrayVec::new();
    for item in items {
        places.push(item.place);
    }
    places
}
