//! Getting and dropping all: a walk over the items.
ghost use Rattle.std.specs.Prelude.{◌≡◌, ◌<◌, [], true, false, if◌then◌else◌};
ghost use Rattle.scott_types.specs.State.{Fits};
ghost use Rattle.scott_rules.specs.Transfer.{none_taken, all_items, is_too_dark, all_from, all_transferred};
ghost use Rattle.scott_turn.specs.ItemTurns.{item_turn, ends_all, over_in, is_taken_by};
ghost use Rattle.scott_turn.specs.Done.{Does};

use crate::games::Game;
use crate::item_turns::{ItemTurn, do_item_turn};
use crate::saying::{say_only, say_text};
use adv_counts::Tally;
use adv_io::{Console, ConsoleFault};
use scott_types::{Phrase, State, Transfer};

/// What a walk over the items gave: the game's ending, if it ended there, and whether an item was
/// taken.
#[derive(Clone, Copy)]
pub struct AllResult {
    pub over: Option<u8>,
    pub any_taken: bool,
}

// Whether the command ends with an item.
fn ends_all(item_turn: ItemTurn) -> bool
    ensures { result ≡ ends_all item_turn }
{
    match item_turn {
        ItemTurn::Ended(_) => true,
        _ => false,
    }
}

// How an item ended the game, if it did.
fn over_in(item_turn: ItemTurn) -> Option<u8>
    ensures { result ≡ over_in item_turn }
{
    match item_turn {
        ItemTurn::Ended(over) => over,
        _ => None,
    }
}

// Whether an item was taken by now.
fn is_taken_by(item_turn: ItemTurn, before: bool) -> bool
    ensures { result ≡ is_taken_by item_turn before }
{
    match item_turn {
        ItemTurn::Moved => true,
        _ => before,
    }
}

// The walk over the items, in order, until the command ends.
fn all_items<C: Console>(
    game: &Game,
    state: &mut State,
    tally: &mut Tally,
    transfer: Transfer,
    typed: &[u8],
    console: &mut C,
) -> Result<AllResult, ConsoleFault>
    requires { Fits game.now.db state.old }
    ensures does { Does (C.seen console.old) (C.seen console.new) result
        (all_items transfer game.now typed.now 0 game.now.db.items state.old)
        (λ all_result. record {
          state = state.new;
          over = all_result.over;
          any_taken = all_result.any_taken;
        })
        tally.old tally.new }
    ensures fits { Fits game.now.db state.new }
{
    let mut any_taken = false;
    for i in 0..game.db().items().len() {
        let item_turn = do_item_turn(game, state, tally, transfer, i as u8, typed, console)?;
        if ends_all(item_turn) {
            return Ok(AllResult {
                over: over_in(item_turn),
                any_taken: true,
            });
        }
        any_taken = is_taken_by(item_turn, any_taken);
    }
    Ok(AllResult {
        over: None,
        any_taken,
    })
}

// What is said where no item was taken.
fn none_taken(transfer: Transfer) -> &'static [u8]
    ensures { result.now ≡ none_taken transfer }
{
    match transfer {
        Transfer::PickUp => Phrase::NothingTaken.text(),
        Transfer::PutDown => Phrase::NothingDropped.text(),
    }
}

// Whether it is too dark to get all.
fn is_too_dark(state: &State, transfer: Transfer) -> bool
    ensures { result ≡ is_too_dark transfer state.now }
{
    match transfer {
        Transfer::PickUp => state.is_dark(),
        Transfer::PutDown => false,
    }
}

// What is said after a walk: that no item was taken, where none was.
fn text_after(all_result: AllResult, transfer: Transfer) -> &'static [u8]
    ensures { result.now ≡ (if all_result.any_taken then [] else none_taken transfer) }
{
    if all_result.any_taken {
        &[]
    } else {
        none_taken(transfer)
    }
}

// The walk over the items, and what is said after it.
fn transfer_all_items<C: Console>(
    game: &Game,
    state: &mut State,
    tally: &mut Tally,
    transfer: Transfer,
    typed: &[u8],
    console: &mut C,
) -> Result<Option<u8>, ConsoleFault>
    requires { Fits game.now.db state.old }
    ensures does { Does (C.seen console.old) (C.seen console.new) result
        (all_from false transfer game.now typed.now state.old)
        (λ over. record { state = state.new; over = over }) tally.old tally.new }
    ensures fits { Fits game.now.db state.new }
{
    let all_result = all_items(game, state, tally, transfer, typed, console)?;
    say_text(text_after(all_result, transfer), console)?;
    Ok(all_result.over)
}

/// Gets or drops all, item by item; for getting it must not be dark.
///
/// The console's fault alone is a refusal; the state fits then too. docs/TURN.md, "Get and drop",
/// has the rule.
pub fn transfer_all<C: Console>(
    game: &Game,
    state: &mut State,
    tally: &mut Tally,
    transfer: Transfer,
    typed: &[u8],
    console: &mut C,
) -> Result<Option<u8>, ConsoleFault>
    requires { Fits game.now.db state.old }
    ensures does { Does (C.seen console.old) (C.seen console.new) result
        (all_transferred transfer game.now typed.now state.old)
        (λ over. record { state = state.new; over = over }) tally.old tally.new }
    ensures fits { Fits game.now.db state.new }
{
    if is_too_dark(state, transfer) {
        say_only(Phrase::DarkGet.text(), console)
    } else {
        transfer_all_items(game, state, tally, transfer, typed, console)
    }
}
