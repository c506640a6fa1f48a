//! What getting and dropping share: what is at hand, and where it goes.
ghost use Rattle.std.specs.Prelude.{◌≡◌, ◌<◌, ◌&&◌, not, length};
ghost use Rattle.scott_types.specs.ItemText.{get_word};
ghost use Rattle.scott_types.specs.State.{Fits};
ghost use Rattle.scott_rules.specs.Words.{is_empty};
ghost use Rattle.scott_rules.specs.Transfer.{is_at_hand, destination, transferred, is_refused};

use scott_actions::is_full;
use scott_rules::laws::transfer_fits;
use scott_types::places::CARRIED;
use scott_types::{Db, State, Transfer};

/// Whether an item is at hand: here to be got, or carried to be dropped.
pub fn is_at_hand(state: &State, transfer: Transfer, item: u8) -> bool
    ensures { result ≡ is_at_hand transfer state.now item }
{
    match transfer {
        Transfer::PickUp => state.is_here(u32::from(item)),
        Transfer::PutDown => state.is_carried(u32::from(item)),
    }
}

// Where an item goes.
fn destination(state: &State, transfer: Transfer) -> u8
    ensures { result ≡ destination transfer state.now }
{
    match transfer {
        Transfer::PickUp => CARRIED,
        Transfer::PutDown => state.room,
    }
}

// An item goes to a place, and the room is described again.
fn place_item(state: &mut State, transfer: Transfer, item: u8)
    requires { item < length state.old.places.items }
    ensures { state.new ≡ transferred transfer item state.old }
{
    let place = destination(state, transfer);
    state.places.as_mut_slice()[item as usize] = place;
    state.redraw = true;
}

/// Gets or drops an item.
pub fn transfer_item(db: &Db, state: &mut State, transfer: Transfer, item: u8)
    requires fits { Fits db.now state.old }
    requires there { item < length db.now.items }
    ensures state { state.new ≡ transferred transfer item state.old }
    ensures fits { Fits db.now state.new }
{
    transfer_fits();
    let _limits = db.parts();
    place_item(state, transfer, item);
}

/// Whether no more can be got.
pub fn is_refused(db: &Db, state: &State, transfer: Transfer) -> bool
    ensures { result ≡ is_refused transfer db.now state.now }
{
    match transfer {
        Transfer::PickUp => is_full(db, state),
        Transfer::PutDown => false,
    }
}
