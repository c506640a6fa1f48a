//! A position is read from its text.
ghost use Rattle.std.specs.Prelude.{◌≡◌, ◌↔◌, ℕ, Ok, Err, IfOk, MatchResult};
ghost use Rattle.scott_turn.specs.Positions.{CanStand};
ghost use Rattle.adv_position.specs.Text.{IsSaved, position_text};
ghost use Rattle.adv_position.specs.Bad.{BadLine};
ghost use Rattle.adv_position.specs.Reading.{at_end, position_in};
ghost use Rattle.adv_position.specs.declared.saved.Saved.{Saved};

use crate::laws::{bad_line_is_found, text_is_read};
use crate::lines::{counters, flags, heading, places, position, room_line, rooms, taken};
use crate::reader::Reader;
use crate::saved::{PositionFault, Saved};
use scott_types::{Db, State};

// Nothing may follow the lines.
fn at_end(reader: &Reader, saved: Saved) -> Result<Saved, PositionFault>
    ensures { MatchResult result
        (λ value. at_end reader.now saved ≡ Ok value)
        (λ fault. at_end reader.now saved ≡ Err fault.0) }
{
    if reader.rest().is_empty() {
        Ok(saved)
    } else {
        Err(PositionFault(9))
    }
}

// Reads the lines, one after the other.
fn read_lines(db: &Db, bytes: &[u8]) -> Result<Saved, PositionFault>
    ensures { MatchResult result
        (λ saved. position_in db.now bytes.now ≡ Ok saved)
        (λ fault. position_in db.now bytes.now ≡ Err fault.0) }
{
    let mut reader = Reader::new(bytes);
    let Some(()) = heading(&mut reader) else {
        return Err(PositionFault(1));
    };
    let Some(position) = position(db, &mut reader) else {
        return Err(PositionFault(2));
    };
    let Some(taken) = taken(&mut reader) else {
        return Err(PositionFault(3));
    };
    let Some(now) = room_line(db, &mut reader) else {
        return Err(PositionFault(4));
    };
    let Some(rooms) = rooms(db, &mut reader) else {
        return Err(PositionFault(5));
    };
    let Some(counters) = counters(&mut reader) else {
        return Err(PositionFault(6));
    };
    let Some(flags) = flags(&mut reader) else {
        return Err(PositionFault(7));
    };
    let Some(places) = places(db, &mut reader) else {
        return Err(PositionFault(8));
    };
    let state = State {
        room: now.room,
        saved: now.saved,
        rooms,
        counter: now.counter,
        counters,
        flags,
        light: now.light,
        places,
        redraw: now.redraw,
    };
    at_end(
        &reader,
        Saved {
            state,
            position,
            taken,
        },
    )
}

/// The play that stopped, of which these bytes are the text; or the number of the first line that
/// isn't as it is to be or isn't ended, 1 to 8, or 9 where bytes follow the eighth.
///
/// It takes no memory. docs/FORMAT.md, "Positions", has the lines.
pub fn read_position(db: &Db, bytes: &[u8]) -> Result<Saved, PositionFault>
    ensures text { (saved : Saved) → (result ≡ Ok saved)
        ↔ (IsSaved db.now saved × (bytes.now ≡ position_text saved)) }
    ensures bad { (n : ℕ) → (result ≡ Err (record { 0 = n })) ↔ BadLine db.now bytes.now n }

    // A session can be opened at what is read.
    ensures saved { IfOk result (λ saved. IsSaved db.now saved) }
    ensures stands { IfOk result (λ saved. CanStand db.now saved.position) }

    // The same as a function of the bytes.
    ensures as_read { MatchResult result
        (λ saved. position_in db.now bytes.now ≡ Ok saved)
        (λ fault. position_in db.now bytes.now ≡ Err fault.0) }
{
    let _limits = db.parts();
    text_is_read();
    bad_line_is_found();
    read_lines(db, bytes)
}
