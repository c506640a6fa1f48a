//! The lines of a position, each read by itself. The reader stands at a line, and after it behind
//! the line's end.
ghost use Rattle.std.specs.Prelude.{◌≡◌, ℤ, IsTrue, Some, None, MatchOption, pos};
ghost use Rattle.adv_position.specs.Numbers.{is_within, is_byte_number};
ghost use Rattle.adv_position.specs.Reading.{heading_in, head_in, at_in, taken_in, room_line_in, rooms_in, counters_in, flags_in, places_in, highest_room};

use crate::reader::Reader;
use crate::saved::TAKEN_LIMIT;
use arrayvec::ArrayVec;
use scott_turn::is_automatic;
use scott_types::{Db, Position, State};

/// What the room line says of a state.
#[derive(Clone, Copy)]
pub struct RoomLine {
    pub room: u8,
    pub saved: u8,
    pub light: i32,
    pub counter: i16,
    pub redraw: bool,
}

/// The first line, which is always the same.
pub fn heading(reader: &mut Reader) -> Option<()>
    ensures { MatchOption result
        (heading_in reader.old ≡ None)
        (λ _. heading_in reader.old ≡ Some (tt, reader.new)) }
{
    reader.text(b"position 1\n")
}

// The line of a play that waits for the draw of a head.
fn head(db: &Db, reader: &mut Reader) -> Option<Position>
    ensures { MatchOption result
        (head_in db.now reader.old ≡ None)
        (λ position. head_in db.now reader.old ≡ Some (position, reader.new)) }
{
    let head: u16 = reader.field(b"at draw", 0, 65535)?;
    if !is_automatic(db, head) {
        return None;
    }
    reader.text(b"\n")?;
    Some(Position::Draw(head))
}

/// Where the play stands: at a prompt, or at the draw of a head.
pub fn position(db: &Db, reader: &mut Reader) -> Option<Position>
    ensures { MatchOption result
        (at_in db.now reader.old ≡ None)
        (λ position. at_in db.now reader.old ≡ Some (position, reader.new)) }
{
    let mut at_line = Reader::new(reader.rest());
    if at_line.text(b"at line\n").is_some() {
        *reader = at_line;
        return Some(Position::Line);
    }
    head(db, reader)
}

/// How many draws were taken.
pub fn taken(reader: &mut Reader) -> Option<u32>
    ensures { MatchOption result
        (taken_in reader.old ≡ None)
        (λ taken. taken_in reader.old ≡ Some (taken, reader.new)) }
{
    let taken = reader.field(b"taken", 0, TAKEN_LIMIT as i32)?;
    reader.text(b"\n")?;
    Some(taken)
}

// The number of the highest room.
fn highest_room(db: &Db) -> i32
    ensures value { result ≡ highest_room db.now }
    ensures byte { (z : ℤ) → IsTrue (is_within (pos 0) result z) → IsTrue (is_byte_number z) }
{
    (db.rooms().len() - 1) as i32
}

/// The rooms, the light, the counter and the redraw mark.
pub fn room_line(db: &Db, reader: &mut Reader) -> Option<RoomLine>
    ensures { MatchOption result
        (room_line_in db.now reader.old ≡ None)
        (λ now. room_line_in db.now reader.old ≡ Some (now, reader.new)) }
{
    let room = reader.field(b"room", 0, highest_room(db))?;
    let saved = reader.field(b" saved", 0, highest_room(db))?;
    let light = reader.field(b" light", -1, db.header().light)?;
    let counter = reader.field(b" counter", -1, 32767)?;
    let redraw = reader.field(b" redraw", 0, 1)?;
    reader.text(b"\n")?;
    Some(RoomLine {
        room,
        saved,
        light,
        counter,
        redraw,
    })
}

/// The backup rooms.
pub fn rooms(db: &Db, reader: &mut Reader) -> Option<[u8; 16]>
    ensures { MatchOption result
        (rooms_in db.now reader.old ≡ None)
        (λ rooms. rooms_in db.now reader.old ≡ Some (rooms, reader.new)) }
{
    let mut rooms = [0; 16];
    reader.numbers(b"rooms", 0, highest_room(db), &mut rooms)?;
    Some(rooms)
}

/// The backup counters.
pub fn counters(reader: &mut Reader) -> Option<[i16; 16]>
    ensures { MatchOption result
        (counters_in reader.old ≡ None)
        (λ counters. counters_in reader.old ≡ Some (counters, reader.new)) }
{
    let mut counters = [0; 16];
    reader.numbers(b"counters", -1, 32767, &mut counters)?;
    Some(counters)
}

/// The flags.
pub fn flags(reader: &mut Reader) -> Option<[bool; 32]>
    ensures { MatchOption result
        (flags_in reader.old ≡ None)
        (λ flags. flags_in reader.old ≡ Some (flags, reader.new)) }
{
    let mut flags = [false; 32];
    reader.numbers(b"flags", 0, 1, &mut flags)?;
    Some(flags)
}

/// The place of each item.
pub fn places(db: &Db, reader: &mut Reader) -> Option<ArrayVec<u8, 255>>
    ensures { MatchOption result
        (places_in db.now reader.old ≡ None)
        (λ places. places_in db.now reader.old ≡ Some (places.items, reader.new)) }
{
    let mut places = State::start(db).places;
    reader.numbers(b"places", 0, 255, places.as_mut_slice())?;
    Some(places)
}
