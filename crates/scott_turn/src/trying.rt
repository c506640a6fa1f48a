//! To try a group: its head, and the tail where the head goes on.
ghost use Rattle.std.specs.Prelude.{◌≡◌, ◌+◌, ◌<◌, length};
ghost use Rattle.scott_types.specs.State.{Fits};
ghost use Rattle.std.specs.List.{list_all};
ghost use Rattle.scott_types.specs.Action.{is_zero, is_zero_action};
ghost use Rattle.scott_types.specs.Database.{action_at};
ghost use Rattle.scott_rules.specs.Actions.{note_of, try_action};
ghost use Rattle.scott_rules.specs.Groups.{over_of, tail_action, tail_tried, passed_or_over, group_tried};
ghost use Rattle.scott_turn.specs.Heads.{tail_from, group_at};
ghost use Rattle.scott_turn.specs.Tried.{tallied};
ghost use Rattle.scott_turn.specs.Done.{Does};

use crate::games::Game;
use crate::heads::tail_goes_on;
use adv_counts::Tally;
use adv_io::{Console, ConsoleFault};
use scott_actions::perform;
use scott_types::{Action, Ran, State};

fn are_zeros(numbers: &[u32]) -> bool
    ensures { result ≡ list_all is_zero numbers.now }
{
    numbers.iter().all(|number| *number == 0)
}

// Whether the eight numbers of a line are zeros.
fn is_zero_action(action: &Action) -> bool
    ensures { result ≡ is_zero_action action.now }
{
    action.vocab == 0 && are_zeros(&action.conds) && are_zeros(&action.pairs)
}

// Counts a line that is tried, unless it is all zeros.
fn note(game: &Game, tally: &mut Tally, line: u16)
    requires { line < length game.now.db.actions }
    ensures { tally.new ≡ tallied (note_of (action_at game.now.db line) line) tally.old }
{
    if !is_zero_action(&game.db().actions()[line as usize]) {
        tally.count(line as usize);
    }
}

// Tries an action line.
#[tactic(auto, using(crate::proofs::Showing::shown_action))]
fn try_action<C: Console>(
    game: &Game,
    state: &mut State,
    tally: &mut Tally,
    line: u16,
    noun: &[u8],
    console: &mut C,
) -> Result<Ran, ConsoleFault>
    requires fits { Fits game.now.db state.old }
    requires there { line < length game.now.db.actions }
    ensures does { Does (C.seen console.old) (C.seen console.new) result
        (try_action game.now noun.now line state.old)
        (λ ran. record { state = state.new; ran = ran }) tally.old tally.new }
    ensures fits { Fits game.now.db state.new }
{
    note(game, tally, line);
    perform(game.db(), game.style(), state, line, noun, console)
}

// The ending that a line came to.
fn over_of(ran: Ran) -> Option<u8>
    ensures { result ≡ over_of ran }
{
    match ran {
        Ran::Over(ending) => Some(ending),
        _ => None,
    }
}

// Tries a line of a tail, and answers whether it ended the game.
fn try_tail_action<C: Console>(
    game: &Game,
    state: &mut State,
    tally: &mut Tally,
    line: u16,
    noun: &[u8],
    console: &mut C,
) -> Result<Option<u8>, ConsoleFault>
    requires fits { Fits game.now.db state.old }
    requires there { line < length game.now.db.actions }
    ensures does { Does (C.seen console.old) (C.seen console.new) result
        (tail_action game.now noun.now line state.old)
        (λ over. record { state = state.new; over = over }) tally.old tally.new }
    ensures fits { Fits game.now.db state.new }
{
    let ran = try_action(game, state, tally, line, noun, console)?;
    Ok(over_of(ran))
}

// Tries each line of the tail that goes on at a line, until one ends the game.
fn try_tail<C: Console>(
    game: &Game,
    state: &mut State,
    tally: &mut Tally,
    from: u16,
    noun: &[u8],
    console: &mut C,
) -> Result<Option<u8>, ConsoleFault>
    requires { Fits game.now.db state.old }
    ensures does { Does (C.seen console.old) (C.seen console.new) result
        (tail_tried game.now noun.now (tail_from game.now.db from) state.old)
        (λ over. record { state = state.new; over = over }) tally.old tally.new }
    ensures fits { Fits game.now.db state.new }
{
    let _lines = game.db().actions();
    let mut line = from;
    while tail_goes_on(game.db(), line) {
        let over = try_tail_action(game, state, tally, line, noun, console)?;
        if over.is_some() {
            return Ok(over);
        }
        line += 1;
    }
    Ok(None)
}

// What became of a group whose head went on with its tail.
fn with_tail(over: Option<u8>) -> Ran
    ensures { result ≡ passed_or_over over }
{
    match over {
        None => Ran::Passed(true),
        Some(ending) => Ran::Over(ending),
    }
}

/// Tries the group of a head, with the noun that was typed: the head, and where it passes and goes
/// on each line of its tail.
///
/// The console's fault alone is a refusal; the state fits then too. docs/TURN.md, "Groups", has the
/// rule.
pub fn try_group<C: Console>(
    game: &Game,
    state: &mut State,
    tally: &mut Tally,
    head: u16,
    noun: &[u8],
    console: &mut C,
) -> Result<Ran, ConsoleFault>
    requires fits { Fits game.now.db state.old }
    requires there { head < length game.now.db.actions }
    ensures does { Does (C.seen console.old) (C.seen console.new) result
        (group_tried game.now noun.now (group_at game.now.db head) state.old)
        (λ ran. record { state = state.new; ran = ran }) tally.old tally.new }
    ensures fits { Fits game.now.db state.new }
{
    let _lines = game.db().actions();
    match try_action(game, state, tally, head, noun, console) {
        Ok(Ran::Passed(true)) => match try_tail(game, state, tally, head + 1, noun, console) {
            Ok(over) => Ok(with_tail(over)),
            Err(fault) => Err(fault),
        },
        Ok(ran) => Ok(ran),
        Err(fault) => Err(fault),
    }
}
