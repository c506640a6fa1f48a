//! Getting and dropping one item.
ghost use Rattle.std.specs.Prelude.{◌≡◌, ◌<◌, ◌≤◌, ◌&&◌, not, IfSome, length};
ghost use Rattle.scott_types.specs.ItemText.{get_word};
ghost use Rattle.scott_types.specs.State.{Fits};
ghost use Rattle.scott_rules.specs.Words.{is_empty, is_typed, root};
ghost use Rattle.scott_rules.specs.Transfer.{is_at_hand, item_named, one_moved, one_from, one_transferred};
ghost use Rattle.scott_vocab.specs.Heard.{IsEntry};
ghost use Rattle.scott_turn.specs.ItemTurns.{IsItem};
ghost use Rattle.scott_turn.specs.Done.{Shows};

use crate::games::Game;
use crate::saying::say_only;
use crate::transferring::{is_at_hand, is_refused, transfer_item};
use adv_io::{Console, ConsoleFault};
use scott_types::{Db, Item, Phrase, State, Transfer, get_word};
use scott_vocab::{is_typed, root};

// Whether an item is at hand and the word names it. An empty word names none.
fn is_named(state: &State, transfer: Transfer, size: usize, word: &[u8], i: u8, item: &Item) -> bool
    requires { size ≤ 20 }
    ensures { result
        ≡ (is_at_hand transfer state.now i && (not (is_empty word.now) && is_typed size
        (get_word item.now.text) word.now)) }
{
    is_at_hand(state, transfer, i) && !word.is_empty() && is_typed(size, get_word(&item.text), word)
}

// The least of the items that is at hand and that the word names.
fn least_named(
    items: &[Item],
    state: &State,
    transfer: Transfer,
    size: usize,
    word: &[u8],
) -> Option<u8>
    requires few { length items.now ≤ 255 }
    requires short { size ≤ 20 }
    ensures value { result ≡ item_named transfer size word.now 0 items.now state.now }
    ensures there { IfSome result (λ i. i < length items.now) }
{
    for i in 0..items.len() {
        let item = &items[i];
        if is_named(state, transfer, size, word, i as u8, item) {
            return Some(i as u8);
        }
    }
    None
}

// The least item at hand that a noun names.
fn item_for(db: &Db, state: &State, transfer: Transfer, noun: u16) -> Option<u8>
    requires { noun < length db.now.words }
    ensures value { result ≡ item_named transfer db.now.header.length
        (root db.now noun) 0 db.now.items state.now }
    ensures there { IsItem db.now result }
{
    let parts = db.parts();
    let size = parts.header.length as usize;
    least_named(&parts.items, state, transfer, size, root(db, noun))
}

// Gets or drops an item, or says that it can't be done where there is none.
fn move_one<C: Console>(
    game: &Game,
    state: &mut State,
    transfer: Transfer,
    item: Option<u8>,
    console: &mut C,
) -> Result<Option<u8>, ConsoleFault>
    requires fits { Fits game.now.db state.old }
    requires there { IsItem game.now.db item }
    ensures does { Shows (C.seen console.old) (C.seen console.new) result
        (one_moved game.now.style transfer item state.old)
        (λ over. record { state = state.new; over = over }) }
    ensures fits { Fits game.now.db state.new }
{
    match item {
        None => say_only(Phrase::BeyondPower.text_in(game.style()), console),
        Some(item) => {
            transfer_item(game.db(), state, transfer, item);
            say_only(Phrase::Done.text(), console)
        }
    }
}

// Gets or drops the item that a noun names, unless no more can be got.
fn move_named<C: Console>(
    game: &Game,
    state: &mut State,
    transfer: Transfer,
    noun: u16,
    console: &mut C,
) -> Result<Option<u8>, ConsoleFault>
    requires fits { Fits game.now.db state.old }
    requires there { noun < length game.now.db.words }
    ensures does { Shows (C.seen console.old) (C.seen console.new) result
        (one_transferred transfer game.now (Some noun) state.old)
        (λ over. record { state = state.new; over = over }) }
    ensures fits { Fits game.now.db state.new }
{
    if is_refused(game.db(), state, transfer) {
        say_only(Phrase::TooMuch.text_in(game.style()), console)
    } else {
        let item = item_for(game.db(), state, transfer, noun);
        move_one(game, state, transfer, item, console)
    }
}

/// Gets or drops the item that a noun names; without a noun it asks for one.
///
/// The console's fault alone is a refusal; the state fits then too. docs/TURN.md, "Get and drop",
/// has the rule.
pub fn transfer_one<C: Console>(
    game: &Game,
    state: &mut State,
    transfer: Transfer,
    noun: Option<u16>,
    console: &mut C,
) -> Result<Option<u8>, ConsoleFault>
    requires fits { Fits game.now.db state.old }
    requires there { IsEntry game.now.db noun }
    ensures does { Shows (C.seen console.old) (C.seen console.new) result
        (one_transferred transfer game.now noun state.old)
        (λ over. record { state = state.new; over = over }) }
    ensures fits { Fits game.now.db state.new }
{
    match noun {
        None => say_only(Phrase::WhatItem.text(), console),
        Some(noun) => move_named(game, state, transfer, noun, console),
    }
}
