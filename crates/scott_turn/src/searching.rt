//! The search for a command's group.
ghost use Rattle.std.specs.Prelude.{◌≡◌, ◌+◌, ◌<◌, length};
ghost use Rattle.scott_types.specs.Database.{action_at};
ghost use Rattle.scott_types.specs.State.{Fits};
ghost use Rattle.scott_types.specs.Action.{noun_of};
ghost use Rattle.scott_rules.specs.Groups.{group_tried, groups};
ghost use Rattle.scott_rules.specs.Search.{is_for_noun, search_result};
ghost use Rattle.scott_turn.specs.Heads.{group_at};
ghost use Rattle.scott_turn.specs.Turns.{found_of, search_turn, ends_search, at_least};
ghost use Rattle.scott_turn.specs.Done.{Does};

use crate::games::Game;
use crate::trying::try_group;
use adv_counts::Tally;
use adv_io::{Console, ConsoleFault};
use scott_types::action_lines::noun_of;
use scott_types::{Db, Found, Ran, State};

/// A verb, and the noun that goes with it, by their numbers.
#[derive(Clone, Copy)]
pub struct Command {
    pub verb: u16,
    pub noun: Option<u16>,
}

// Whether a head of this noun is for the noun of a command: one of noun 0 is for every noun and for
// none.
fn is_for_noun(own: u32, noun: Option<u16>) -> bool
    ensures { result ≡ is_for_noun own noun }
{
    match noun {
        None => own == 0,
        Some(noun) => own == u32::from(noun) || own == 0,
    }
}

// Whether the group of a head is for a noun.
fn is_meant(db: &Db, head: u16, noun: Option<u16>) -> bool
    requires { head < length db.now.actions }
    ensures { result ≡ is_for_noun (noun_of (action_at db.now head).vocab) noun }
{
    let action = &db.actions()[head as usize];
    is_for_noun(noun_of(action.vocab), noun)
}

// What a group that was tried gives in a search.
fn found_of(ran: Ran) -> Found
    ensures { result ≡ found_of ran }
{
    match ran {
        Ran::Not => Found::Matched,
        Ran::Passed(_) => Found::Done,
        Ran::Over(ending) => Found::Over(ending),
    }
}

// Tries the group of a head where it is for the noun.
fn search_turn<C: Console>(
    game: &Game,
    state: &mut State,
    tally: &mut Tally,
    head: u16,
    noun: Option<u16>,
    typed: &[u8],
    console: &mut C,
) -> Result<Found, ConsoleFault>
    requires fits { Fits game.now.db state.old }
    requires there { head < length game.now.db.actions }
    ensures does { let b = is_for_noun (noun_of (action_at game.now.db head).vocab) noun in
        Does (C.seen console.old) (C.seen console.new) result
        (search_turn b game.now typed.now (group_at game.now.db head) state.old)
        (λ found. record { state = state.new; found = found }) tally.old tally.new }
    ensures fits { Fits game.now.db state.new }
{
    if is_meant(game.db(), head, noun) {
        let ran = try_group(game, state, tally, head, typed, console)?;
        Ok(found_of(ran))
    } else {
        Ok(Found::NoMatch)
    }
}

// Whether a search ends with a group.
fn ends_search(found: Found) -> bool
    ensures { result ≡ ends_search found }
{
    match found {
        Found::Done => true,
        Found::Over(_) => true,
        _ => false,
    }
}

// What a search has found so far, after one more group.
fn at_least(found: Found, before: Found) -> Found
    ensures { result ≡ at_least found before }
{
    match found {
        Found::NoMatch => before,
        _ => found,
    }
}

/// Tries the groups for a verb and a noun in order, up to the first whose head passes, with the
/// noun that was typed.
///
/// The console's fault alone is a refusal; the state fits then too. docs/TURN.md, "Groups", has the
/// rule.
pub fn search<C: Console>(
    game: &Game,
    state: &mut State,
    tally: &mut Tally,
    command: Command,
    typed: &[u8],
    console: &mut C,
) -> Result<Found, ConsoleFault>
    requires { Fits game.now.db state.old }
    ensures does { Does (C.seen console.old) (C.seen console.new) result
        (search_result game.now typed.now command.verb command.noun (groups game.now.db) state.old)
        (λ found. record { state = state.new; found = found }) tally.old tally.new }
    ensures fits { Fits game.now.db state.new }
{
    let mut before = Found::NoMatch;
    let mut next = game.first_head(command.verb, 0);
    while let Some(head) = next {
        let found = search_turn(game, state, tally, head, command.noun, typed, console)?;
        if ends_search(found) {
            return Ok(found);
        }
        before = at_least(found, before);
        next = game.head_after(head);
    }
    Ok(before)
}
