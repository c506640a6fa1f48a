//! What opcodes do to the places of items.
ghost use Rattle.std.specs.Prelude.{◌≡◌, length};
ghost use Rattle.scott_types.specs.declared.opcodes.ItemOp.TheVariants.{Put};
ghost use Rattle.scott_rules.specs.Opcodes.{moved, redrawn, swapped, items_moved, refilled, is_full};

use scott_types::places::{CARRIED, LAMP, OUT_FLAG};
use scott_types::{Db, ItemOp, State};

/// Whether as many items are carried as can be.
pub fn is_full(db: &Db, state: &State) -> bool
    ensures { result ≡ is_full db.now state.now }
{
    let carry = db.header().carry;
    state.carried_count() as i32 == carry
}

/// An item goes to a place, and the room is marked where the item was or is here.
pub fn move_item(state: &mut State, item: u32, place: u8)
    ensures { state.new ≡ moved state.old item place }
{
    if state.has_item(item) {
        let seen = state.is_here(item) || place == state.room;
        state.places.as_mut_slice()[item as usize] = place;
        state.redraw = state.redraw || seen;
    }
}

fn swap_items(state: &mut State, p: u32, q: u32)
    ensures { state.new ≡ swapped state.old p q }
{
    if state.has_item(p) && state.has_item(q) {
        let first = state.place(p);
        let second = state.place(q);
        move_item(state, p, second);
        move_item(state, q, first);
    }
}

fn put_item(state: &mut State, item: u32, place: u32)
    ensures { state.new ≡ items_moved Put item place state.old }
{
    if state.has_item(item) {
        move_item(state, item, (place % 256) as u8);
        state.redraw = true;
    }
}

/// An opcode that moves items does so with its two parameters.
pub fn move_items(state: &mut State, op: ItemOp, p: u32, q: u32)
    ensures { state.new ≡ items_moved op p q state.old }
{
    match op {
        ItemOp::Drop => move_item(state, p, state.room),
        ItemOp::Remove => move_item(state, p, 0),
        ItemOp::Put => put_item(state, p, q),
        ItemOp::Swap => swap_items(state, p, q),
        ItemOp::Take => move_item(state, p, CARRIED),
        ItemOp::Join => move_item(state, p, state.place(q)),
    }
}

/// The lamp is carried, and lasts as long as at the start.
pub fn refill(db: &Db, state: &mut State)
    requires { length state.old.flags ≡ 32 }
    ensures { state.new ≡ refilled db.now state.old }
{
    state.light = db.header().light;
    state.flags[OUT_FLAG as usize] = false;
    move_item(state, LAMP, CARRIED);
}
