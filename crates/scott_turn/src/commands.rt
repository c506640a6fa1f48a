//! To do a command.
ghost use Rattle.std.specs.Prelude.{◌≡◌, codes, bytes_eq};
ghost use Rattle.scott_types.specs.State.{Fits};
ghost use Rattle.scott_rules.specs.Transfer.{is_all, transfer as got_or_dropped};
ghost use Rattle.scott_rules.specs.Rounds.{not_done, unmatched, by_found, by_actions, going, command_result};
ghost use Rattle.scott_vocab.specs.Heard.{IsEntry};
ghost use Rattle.scott_turn.specs.Done.{Does};

use crate::all_items::transfer_all;
use crate::choosing::transfer_one;
use crate::games::Game;
use crate::saying::say_only;
use crate::searching::{Command, search};
use crate::walking::walk;
use adv_counts::Tally;
use adv_io::{Console, ConsoleFault};
use scott_types::verbs::{DROP, GET, GO};
use scott_types::{Found, Phrase, State, Style, Transfer};
use scott_vocab::is_direction;

// Whether all is meant.
fn is_all(typed: &[u8]) -> bool
    ensures { result ≡ is_all typed.now }
{
    typed == b"all".as_slice()
}

// Gets or drops, all or one.
fn transfer<C: Console>(
    game: &Game,
    state: &mut State,
    tally: &mut Tally,
    transfer: Transfer,
    noun: Option<u16>,
    typed: &[u8],
    console: &mut C,
) -> Result<Option<u8>, ConsoleFault>
    requires fits { Fits game.now.db state.old }
    requires there { IsEntry game.now.db noun }
    ensures does { Does (C.seen console.old) (C.seen console.new) result
        (got_or_dropped transfer game.now typed.now noun state.old)
        (λ over. record { state = state.new; over = over }) tally.old tally.new }
    ensures fits { Fits game.now.db state.new }
{
    if is_all(typed) {
        transfer_all(game, state, tally, transfer, typed, console)
    } else {
        transfer_one(game, state, transfer, noun, console)
    }
}

// What is said of a command that wasn't done.
fn not_done(style: Style, found: Found) -> &'static [u8]
    ensures { result.now ≡ not_done style found }
{
    match found {
        Found::Matched => Phrase::NotYet.text_in(style),
        _ => Phrase::NotUnderstood.text(),
    }
}

// A command for which no head passed: get and drop have an effect of their own, and others are
// refused.
fn do_unmatched<C: Console>(
    game: &Game,
    state: &mut State,
    tally: &mut Tally,
    command: Command,
    typed: &[u8],
    found: Found,
    console: &mut C,
) -> Result<Option<u8>, ConsoleFault>
    requires fits { Fits game.now.db state.old }
    requires there { IsEntry game.now.db command.noun }
    ensures does { Does (C.seen console.old) (C.seen console.new) result
        (unmatched game.now typed.now command.verb command.noun found state.old)
        (λ over. record { state = state.new; over = over }) tally.old tally.new }
    ensures fits { Fits game.now.db state.new }
{
    if command.verb == GET {
        transfer(
            game,
            state,
            tally,
            Transfer::PickUp,
            command.noun,
            typed,
            console,
        )
    } else if command.verb == DROP {
        transfer(
            game,
            state,
            tally,
            Transfer::PutDown,
            command.noun,
            typed,
            console,
        )
    } else {
        say_only(not_done(game.style(), found), console)
    }
}

// What is done after the search for a command.
fn finish_command<C: Console>(
    game: &Game,
    state: &mut State,
    tally: &mut Tally,
    command: Command,
    typed: &[u8],
    found: Found,
    console: &mut C,
) -> Result<Option<u8>, ConsoleFault>
    requires fits { Fits game.now.db state.old }
    requires there { IsEntry game.now.db command.noun }
    ensures does { Does (C.seen console.old) (C.seen console.new) result
        (by_found found game.now typed.now command.verb command.noun state.old)
        (λ over. record { state = state.new; over = over }) tally.old tally.new }
    ensures fits { Fits game.now.db state.new }
{
    match found {
        Found::Over(ending) => Ok(Some(ending)),
        Found::Done => Ok(None),
        Found::Matched => do_unmatched(game, state, tally, command, typed, Found::Matched, console),
        Found::NoMatch => do_unmatched(game, state, tally, command, typed, Found::NoMatch, console),
    }
}

// A command that is searched for among the lines.
fn do_by_actions<C: Console>(
    game: &Game,
    state: &mut State,
    tally: &mut Tally,
    command: Command,
    typed: &[u8],
    console: &mut C,
) -> Result<Option<u8>, ConsoleFault>
    requires fits { Fits game.now.db state.old }
    requires there { IsEntry game.now.db command.noun }
    ensures does { Does (C.seen console.old) (C.seen console.new) result
        (by_actions game.now typed.now command.verb command.noun state.old)
        (λ over. record { state = state.new; over = over }) tally.old tally.new }
    ensures fits { Fits game.now.db state.new }
{
    let found = search(game, state, tally, command, typed, console)?;
    finish_command(game, state, tally, command, typed, found, console)
}

// Going: it asks for a direction, and goes there. With another noun it is a verb like any.
fn do_going<C: Console>(
    game: &Game,
    state: &mut State,
    tally: &mut Tally,
    noun: Option<u16>,
    typed: &[u8],
    console: &mut C,
) -> Result<Option<u8>, ConsoleFault>
    requires fits { Fits game.now.db state.old }
    requires there { IsEntry game.now.db noun }
    ensures does { Does (C.seen console.old) (C.seen console.new) result
        (going game.now typed.now noun state.old)
        (λ over. record { state = state.new; over = over }) tally.old tally.new }
    ensures fits { Fits game.now.db state.new }
{
    match noun {
        None => say_only(Phrase::NeedDirection.text(), console),
        Some(noun) => {
            if is_direction(noun) {
                walk(game, state, noun, console)
            } else {
                let command = Command {
                    verb: GO,
                    noun: Some(noun),
                };
                do_by_actions(game, state, tally, command, typed, console)
            }
        }
    }
}

/// Does a command, with the noun that was typed, and answers how it ended the game, if it did.
///
/// The console's fault alone is a refusal; the state fits then too. docs/TURN.md, "Commands", has
/// the rule.
pub fn do_command<C: Console>(
    game: &Game,
    state: &mut State,
    tally: &mut Tally,
    command: Command,
    typed: &[u8],
    console: &mut C,
) -> Result<Option<u8>, ConsoleFault>
    requires fits { Fits game.now.db state.old }
    requires there { IsEntry game.now.db command.noun }
    ensures does { Does (C.seen console.old) (C.seen console.new) result
        (command_result game.now typed.now command.verb command.noun state.old)
        (λ over. record { state = state.new; over = over }) tally.old tally.new }
    ensures fits { Fits game.now.db state.new }
{
    if command.verb == GO {
        do_going(game, state, tally, command.noun, typed, console)
    } else {
        do_by_actions(game, state, tally, command, typed, console)
    }
}
