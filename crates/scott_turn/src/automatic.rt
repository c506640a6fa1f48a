//! The automatic step: the groups of verb 0, each where a draw lets it in.
ghost use Rattle.std.specs.Prelude.{◌≡◌, ◌+◌, ◌<◌, ◌==◌, nat_le, [], length};
ghost use Rattle.adv_draws.specs.Supply.{supplied};
ghost use Rattle.scott_types.specs.Database.{action_at};
ghost use Rattle.scott_types.specs.State.{Fits};
ghost use Rattle.scott_types.specs.Action.{noun_of};
ghost use Rattle.scott_rules.specs.Groups.{over_of, group_tried, groups_from, automatic};
ghost use Rattle.scott_turn.specs.Heads.{group_at};
ghost use Rattle.scott_turn.specs.Turns.{halt_of, entered, auto_turn, goes_through};
ghost use Rattle.scott_turn.specs.Done.{Does};

use crate::games::Game;
use crate::trying::try_group;
use adv_counts::Tally;
use adv_draws::Draws;
use adv_io::{Console, ConsoleFault};
use scott_types::action_lines::noun_of;
use scott_types::verbs::AUTOMATIC;
use scott_types::{Db, Halt, Ran, State};

// How far the step came with a group that was tried.
fn halt_of(ran: Ran) -> Halt
    ensures { result ≡ halt_of (over_of ran) }
{
    match ran {
        Ran::Over(ending) => Halt::Over(ending),
        _ => Halt::Through,
    }
}

// Whether a draw lets the group of a head in: it is at most the head's noun.
fn lets_in(db: &Db, head: u16, draw: u8) -> bool
    requires { head < length db.now.actions }
    ensures { result ≡ nat_le draw (noun_of (action_at db.now head).vocab) }
{
    let action = &db.actions()[head as usize];
    u32::from(draw) <= noun_of(action.vocab)
}

// Tries the group of a head where its draw lets it in, and answers how far the step came.
fn enter<C: Console>(
    game: &Game,
    state: &mut State,
    tally: &mut Tally,
    head: u16,
    draw: u8,
    console: &mut C,
) -> Result<Halt, ConsoleFault>
    requires fits { Fits game.now.db state.old }
    requires there { head < length game.now.db.actions }
    ensures does { let b = nat_le draw (noun_of (action_at game.now.db head).vocab) in
        Does (C.seen console.old) (C.seen console.new) result
        (entered b game.now (group_at game.now.db head) state.old [])
        (λ halt. record { state = state.new; draws = []; halt = halt }) tally.old tally.new }
    ensures fits { Fits game.now.db state.new }
{
    if lets_in(game.db(), head, draw) {
        let ran = try_group(game, state, tally, head, &[], console)?;
        Ok(halt_of(ran))
    } else {
        Ok(Halt::Through)
    }
}

// Takes the draw of a head's group, and tries the group where that lets it in.
fn auto_turn<C: Console>(
    game: &Game,
    state: &mut State,
    tally: &mut Tally,
    head: u16,
    draws: &mut Draws,
    console: &mut C,
) -> Result<Halt, ConsoleFault>
    requires fits { Fits game.now.db state.old }
    requires there { head < length game.now.db.actions }
    ensures does { Does (C.seen console.old) (C.seen console.new) result
        (auto_turn game.now (group_at game.now.db head) state.old draws.old.left)
        (λ halt. record { state = state.new; draws = draws.new.left; halt = halt })
        tally.old tally.new }
    ensures draws { draws.new.left
        ≡ (auto_turn game.now (group_at game.now.db head) state.old draws.old.left).value.draws }
    ensures taken { supplied draws.new ≡ supplied draws.old }
    ensures fits { Fits game.now.db state.new }
{
    match draws.next() {
        None => Ok(Halt::Waits(head)),
        Some(draw) => enter(game, state, tally, head, draw, console),
    }
}

// Whether the step goes on after a group.
fn goes_on(halt: Halt) -> bool
    ensures { result ≡ goes_through halt }
{
    match halt {
        Halt::Through => true,
        _ => false,
    }
}

/// The automatic step from a line on: each group of verb 0 whose head stands there or after takes a
/// draw, and is tried where that is at most its noun. It stops at a group that waits for its draw,
/// and where the game ends.
///
/// The console's fault alone is a refusal; the state fits then too. docs/TURN.md, "Groups", has the
/// rule.
pub fn automatic<C: Console>(
    game: &Game,
    state: &mut State,
    tally: &mut Tally,
    from: u16,
    draws: &mut Draws,
    console: &mut C,
) -> Result<Halt, ConsoleFault>
    requires { Fits game.now.db state.old }
    ensures does { Does (C.seen console.old) (C.seen console.new) result
        (automatic game.now (groups_from game.now.db from) state.old draws.old.left)
        (λ halt. record { state = state.new; draws = draws.new.left; halt = halt })
        tally.old tally.new }
    ensures taken { supplied draws.new ≡ supplied draws.old }
    ensures fits { Fits game.now.db state.new }
{
    let mut next = game.first_head(AUTOMATIC, from);
    while let Some(head) = next {
        let halt = auto_turn(game, state, tally, head, draws, console)?;
        if !goes_on(halt) {
            return Ok(halt);
        }
        next = game.head_after(head);
    }
    Ok(Halt::Through)
}
