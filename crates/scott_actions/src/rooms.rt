//! What opcodes do to the room.
ghost use Rattle.std.specs.Prelude.{◌≡◌, true};
ghost use Rattle.scott_types.specs.declared.opcodes.RoomOp.TheVariants.{Go};
ghost use Rattle.scott_types.specs.State.{Fits};
ghost use Rattle.scott_rules.specs.Opcodes.{with_backup_room, room_changed, dead};

use scott_types::places::DARK_FLAG;
use scott_types::{Db, RoomOp, State};

fn go_to(db: &Db, state: &mut State, room: u32)
    ensures { state.new ≡ room_changed db.now Go room state.old }
{
    if (room as usize) < db.rooms().len() {
        state.room = room as u8;
        state.redraw = true;
    }
}

fn swap_saved(state: &mut State)
    ensures { state.new ≡ record state.old {
      room = state.old.saved;
      saved = state.old.room;
      redraw = true;
    } }
{
    let room = state.room;
    state.room = state.saved;
    state.saved = room;
    state.redraw = true;
}

fn swap_backup(state: &mut State, backup: u32)
    ensures { state.new ≡ with_backup_room backup state.old }
{
    if backup < 16 {
        let room = state.room;
        state.room = state.rooms[backup as usize];
        state.rooms[backup as usize] = room;
        state.redraw = true;
    }
}

/// An opcode that changes the room does so with its parameter.
pub fn change_room(db: &Db, state: &mut State, op: RoomOp, p: u32)
    ensures { state.new ≡ room_changed db.now op p state.old }
{
    match op {
        RoomOp::Go => go_to(db, state, p),
        RoomOp::SwapSaved => swap_saved(state),
        RoomOp::SwapRoom => swap_backup(state, p),
    }
}

/// The player wakes in the highest room, in the light.
pub fn wake(db: &Db, state: &mut State)
    ensures { state.new ≡ dead db.now state.old }
{
    state.flags[DARK_FLAG as usize] = false;
    state.room = (db.rooms().len() - 1) as u8;
}
