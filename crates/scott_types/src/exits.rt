//! Where the exits of a room lead.
ghost use Rattle.std.specs.Prelude.{◌≡◌, ◌<◌, ◌≤◌, length};
ghost use Rattle.scott_types.specs.Room.{room_beyond, exit_of};
ghost use Rattle.scott_types.specs.Database.{room_at};

use crate::databases::Db;

/// The room that an exit leads to, or 0 for no exit. The direction is 0..5: north, south, east,
/// west, up, down.
///
/// An exit whose number is no room from 1 on is no exit.
pub fn exit(db: &Db, room: u8, direction: usize) -> u8
    requires room_there { room < length db.now.rooms }
    requires direction_there { direction < 6 }
    ensures value { result ≡ exit_of (length db.now.rooms) (room_at db.now room).exits direction }
    ensures six { length (room_at db.now room).exits ≡ 6 }
{
    let rooms = &db.parts().rooms;
    room_beyond(rooms.len(), rooms[room as usize].exits[direction])
}

/// The room that an exit's number means among so many rooms, or 0 for no exit.
pub fn room_beyond(rooms: usize, number: i32) -> u8
    requires { rooms ≤ 255 }
    ensures { result ≡ room_beyond rooms number }
{
    if 0 < number && (number as usize) < rooms {
        number as u8
    } else {
        0
    }
}
