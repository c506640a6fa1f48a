//! The table of exits.
ghost use Rattle.std.specs.Prelude.{◌≡◌, ◌≤◌, ◌++◌, IfOk, map, flat_map};
ghost use Rattle.scott_types.specs.Room.{room_beyond};
ghost use Rattle.trans_specs.specs.Tables.{exits_of_room};

use adv_io::Memory;
use scott_types::{Db, Room, room_beyond};
use std::alloc::Global;

// The exits of a room, after those of other rooms.
fn with_exits(numbers: Vec<u32>, rooms: usize, exits: &[i32]) -> Result<Vec<u32>, Memory>
    requires { rooms ≤ 255 }
    ensures { IfOk result (λ all. all.items
        ≡ numbers.items ++ map (room_beyond rooms) exits.now) }
{
    let mut all = numbers;
    for number in exits {
        all.push(room_beyond(rooms, *number) as u32)?;
    }
    Ok(all)
}

// The exits of these rooms, of so many that there are.
fn exits_of(alloc: Global, count: usize, rooms: &[Room]) -> Result<Vec<u32>, Memory>
    requires { count ≤ 255 }
    ensures { IfOk result (λ numbers. numbers.items
        ≡ flat_map (λ room. map (room_beyond count) room.exits) rooms.now) }
{
    let mut numbers = Vec::new(alloc);
    for room in rooms {
        numbers = with_exits(numbers, count, &room.exits)?;
    }
    Ok(numbers)
}

/// The exits of all rooms, six of each.
pub fn exits(alloc: Global, db: &Db) -> Result<Vec<u32>, Memory>
    ensures { IfOk result (λ numbers. numbers.items
        ≡ flat_map (exits_of_room db.now) db.now.rooms) }
{
    let rooms = db.rooms();
    exits_of(alloc, rooms.len(), rooms)
}
