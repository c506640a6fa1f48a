//! Lists in a text: which items are at a place, and which exits a room has.
ghost use Rattle.std.specs.Prelude.{◌≡◌, ◌≤◌, ◌<◌, List, length, map};
ghost use Rattle.std.specs.List.{All};
ghost use Rattle.scott_types.specs.declared.parts.Item.{Item};
ghost use Rattle.scott_rules.specs.Looking.{items_at_place, exit_names};
ghost use Rattle.scott_light.specs.ItemTexts.{texts_of};

use arrayvec::ArrayVec;
use scott_types::{Db, Phrase, exit};

/// The numbers of the items at a place, in their order, by the place of each item.
pub fn numbers_at(places: &[u8], place: u8) -> ArrayVec<u8, 255>
    requires { length places.now ≤ 255 }
    ensures texts { (items : List Item) → length items ≡ length places.now
        → texts_of items result.items ≡ items_at_place items places.now place }
    ensures there { All (λ number. number < length places.now) result.items }
{
    let mut numbers = ArrayVec::new();
    for i in 0..places.len() {
        if places[i] == place {
            numbers.push(i as u8);
        }
    }
    numbers
}

// The names of the directions, in the order of a room's exits.
static DIRECTIONS: [Phrase; 6] = [
    Phrase::North,
    Phrase::South,
    Phrase::East,
    Phrase::West,
    Phrase::Up,
    Phrase::Down,
];

/// The names of the exits that a room has, in their order.
pub fn exit_names(db: &Db, room: u8) -> ArrayVec<&'static [u8], 6>
    requires { room < length db.now.rooms }
    ensures { map (λ text. text.now) result.items ≡ exit_names db.now room }
{
    let mut names = ArrayVec::new();
    for i in 0..6 {
        if exit(db, room, i) != 0 {
            names.push(DIRECTIONS[i].text());
        }
    }
    names
}
