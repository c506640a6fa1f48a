//! Getting and dropping all: the turn of one item.
ghost use Rattle.std.specs.Prelude.{◌≡◌, ◌<◌, ◌++◌, IfOk, length, true, if◌then◌else◌};
ghost use Rattle.scott_types.specs.Database.{item_at};
ghost use Rattle.adv_io.specs.History.{says};
ghost use Rattle.adv_io.specs.Console.{Speaks};
ghost use Rattle.scott_types.specs.declared.phrases.Phrase.TheVariants.{ItemDone, TooMuch};
ghost use Rattle.scott_types.specs.ItemText.{shown, get_word};
ghost use Rattle.scott_types.specs.Phrase.{text_of, text_in};
ghost use Rattle.scott_types.specs.State.{Fits};
ghost use Rattle.scott_rules.specs.Words.{which};
ghost use Rattle.scott_rules.specs.Transfer.{verb_for, is_taken, is_refused};
ghost use Rattle.scott_turn.specs.ItemTurns.{moved_or_not, ending_in, item_actions, after_actions, item_turn};
ghost use Rattle.scott_turn.specs.Done.{Does, Shows};

use crate::games::Game;
use crate::searching::{Command, search};
use crate::transferring::{is_at_hand, is_refused, transfer_item};
use adv_counts::Tally;
use adv_io::{Console, ConsoleFault, say_both};
use scott_types::verbs::{DROP, GET};
use scott_types::{Column, Found, Item, Phrase, State, Style, Transfer, get_word, shown};
use scott_vocab::Vocabulary;

/// What became of an item at its turn.
#[derive(Clone, Copy)]
pub enum ItemTurn {
    /// It isn't taken.
    Passed,
    /// It was got or dropped.
    Moved,
    /// The command ended with it, and perhaps the game.
    Ended(Option<u8>),
}

// Whether an item is taken: it is at hand at its turn, and has a word by which it is taken.
fn is_taken(state: &State, transfer: Transfer, i: u8, item: &Item) -> bool
    ensures { result ≡ is_taken transfer i item.now state.now }
{
    is_at_hand(state, transfer, i) && !get_word(&item.text).is_empty()
}

// The verb of getting or dropping.
fn verb_for(transfer: Transfer) -> u16
    ensures { result ≡ verb_for transfer }
{
    match transfer {
        Transfer::PickUp => GET,
        Transfer::PutDown => DROP,
    }
}

// The command that an item's lines are searched for: the verb, and the item's own noun.
fn command_for(game: &Game, transfer: Transfer, i: u8) -> Command
    requires { i < length game.now.db.items }
    ensures verb { result.verb ≡ verb_for transfer }
    ensures noun { result.noun
        ≡ which game.now.db Column.Nouns (get_word (item_at game.now.db i).text) }
{
    let item = &game.db().items()[i as usize];
    Command {
        verb: verb_for(transfer),
        noun: game.named(Column::Nouns, get_word(&item.text)),
    }
}

// How a search ended the game, if it did.
fn ending_in(found: Found) -> Option<u8>
    ensures { result ≡ ending_in found }
{
    match found {
        Found::Over(ending) => Some(ending),
        _ => None,
    }
}

// Searches the lines for an item, with the command's verb and the item's own noun. Only an ending
// of theirs counts.
fn try_item_actions<C: Console>(
    game: &Game,
    state: &mut State,
    tally: &mut Tally,
    transfer: Transfer,
    i: u8,
    typed: &[u8],
    console: &mut C,
) -> Result<Option<u8>, ConsoleFault>
    requires fits { Fits game.now.db state.old }
    requires there { i < length game.now.db.items }
    ensures does { Does (C.seen console.old) (C.seen console.new) result
        (item_actions transfer game.now typed.now (item_at game.now.db i) state.old)
        (λ over. record { state = state.new; over = over }) tally.old tally.new }
    ensures fits { Fits game.now.db state.new }
{
    let command = command_for(game, transfer, i);
    let found = search(game, state, tally, command, typed, console)?;
    Ok(ending_in(found))
}

// Says that an item was got or dropped.
fn say_moved<C: Console>(item: &Item, console: &mut C) -> Result<ItemTurn, ConsoleFault>
    ensures spoken { Speaks (C.seen console.old) (C.seen console.new) result
        (says (shown item.now.text ++ text_of ItemDone)) }
    ensures item_turn { IfOk result (λ item_turn. item_turn ≡ ItemTurn.Moved) }
{
    say_both(shown(&item.text), Phrase::ItemDone.text(), console)?;
    Ok(ItemTurn::Moved)
}

// Says that no more can be carried.
fn say_too_much<C: Console>(style: Style, console: &mut C) -> Result<ItemTurn, ConsoleFault>
    ensures spoken { Speaks (C.seen console.old) (C.seen console.new) result
        (says (text_in style TooMuch)) }
    ensures item_turn { IfOk result (λ item_turn. item_turn ≡ ItemTurn.Ended None) }
{
    console.say(Phrase::TooMuch.text_in(style))?;
    Ok(ItemTurn::Ended(None))
}

// Gets or drops an item that was taken, or refuses it and ends the command.
fn move_taken<C: Console>(
    game: &Game,
    state: &mut State,
    transfer: Transfer,
    i: u8,
    console: &mut C,
) -> Result<ItemTurn, ConsoleFault>
    requires fits { Fits game.now.db state.old }
    requires there { i < length game.now.db.items }
    ensures does { let refused = is_refused transfer game.now.db state.old in
        Shows (C.seen console.old) (C.seen console.new) result
        (moved_or_not refused game.now.style transfer i (item_at game.now.db i) state.old)
        (λ item_turn. record { state = state.new; item_turn = item_turn }) }
    ensures fits { Fits game.now.db state.new }
{
    if is_refused(game.db(), state, transfer) {
        say_too_much(game.style(), console)
    } else {
        let item = &game.db().items()[i as usize];
        transfer_item(game.db(), state, transfer, i);
        say_moved(item, console)
    }
}

// What becomes of an item after its lines.
fn finish_item<C: Console>(
    game: &Game,
    state: &mut State,
    transfer: Transfer,
    i: u8,
    over: Option<u8>,
    console: &mut C,
) -> Result<ItemTurn, ConsoleFault>
    requires fits { Fits game.now.db state.old }
    requires there { i < length game.now.db.items }
    ensures does { Shows (C.seen console.old) (C.seen console.new) result
        (after_actions over transfer game.now i (item_at game.now.db i) state.old)
        (λ found. record { state = state.new; item_turn = found }) }
    ensures fits { Fits game.now.db state.new }
{
    match over {
        Some(ending) => Ok(ItemTurn::Ended(Some(ending))),
        None => move_taken(game, state, transfer, i, console),
    }
}

// The turn of an item that is taken: its lines are searched first.
fn take_item<C: Console>(
    game: &Game,
    state: &mut State,
    tally: &mut Tally,
    transfer: Transfer,
    i: u8,
    typed: &[u8],
    console: &mut C,
) -> Result<ItemTurn, ConsoleFault>
    requires fits { Fits game.now.db state.old }
    requires there { i < length game.now.db.items }
    ensures does { Does (C.seen console.old) (C.seen console.new) result
        (item_turn true transfer game.now typed.now i (item_at game.now.db i) state.old)
        (λ found. record { state = state.new; item_turn = found }) tally.old tally.new }
    ensures fits { Fits game.now.db state.new }
{
    let over = try_item_actions(game, state, tally, transfer, i, typed, console)?;
    finish_item(game, state, transfer, i, over, console)
}

/// An item's turn, whether or not it is taken.
///
/// The console's fault alone is a refusal; the state fits then too.
pub fn do_item_turn<C: Console>(
    game: &Game,
    state: &mut State,
    tally: &mut Tally,
    transfer: Transfer,
    i: u8,
    typed: &[u8],
    console: &mut C,
) -> Result<ItemTurn, ConsoleFault>
    requires fits { Fits game.now.db state.old }
    requires there { i < length game.now.db.items }
    ensures does { let any_taken = is_taken transfer i (item_at game.now.db i) state.old in
        Does (C.seen console.old) (C.seen console.new) result
        (item_turn any_taken transfer game.now typed.now i (item_at game.now.db i) state.old)
        (λ found. record { state = state.new; item_turn = found }) tally.old tally.new }
    ensures fits { Fits game.now.db state.new }
{
    let item = &game.db().items()[i as usize];
    if is_taken(state, transfer, i, item) {
        take_item(game, state, tally, transfer, i, typed, console)
    } else {
        Ok(ItemTurn::Passed)
    }
}
