//! The numbers of a database that its routines speak of.
ghost use Rattle.std.specs.Prelude.{◌≡◌};
ghost use Rattle.trans_actions.specs.Names.{numbers as the_numbers};

use scott_types::Db;

// Places of the numbers that are handed in: how many items and rooms there are, the last room, and
// how long the light lasts.
pub const ITEMS: usize = 0;

pub const ROOMS: usize = 1;

pub const LAST: usize = 2;

pub const LASTS: usize = 3;

/// The numbers in the order of their places. A light that never burns down is no number, and
/// 0 here.
pub fn numbers(db: &Db) -> [u32; 4]
    ensures { result ≡ the_numbers db.now }
{
    let rooms = db.rooms().len() as u32;
    [
        db.items().len() as u32,
        rooms,
        rooms.saturating_sub(1),
        u32::try_from(db.header().light).unwrap_or(0),
    ]
}
