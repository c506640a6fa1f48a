//! Rounds, one after another, until a line or a draw is wanted or the game is over.
ghost use Rattle.std.specs.Prelude.{◌≡◌, ◌+◌, ◌<◌, ◌≤◌, false, length, IfOk, IfSome, OnOk};
ghost use Rattle.adv_draws.specs.Supply.{supplied};
ghost use Rattle.adv_io.specs.Faults.{HasCause};
ghost use Rattle.scott_types.specs.State.{Fits};
ghost use Rattle.scott_rules.specs.Play.{go};
ghost use Rattle.scott_turn.specs.Positions.{CanStand};
ghost use Rattle.scott_turn.specs.Rounds.{is_prompt, next_answer, from_there, AnswersNext, GoesRound, PlaysOut};
ghost use Rattle.scott_turn.specs.Tried.{tallied, TalliesOn};

use crate::advancing::advance;
use crate::answering::answer;
use crate::games::Game;
use crate::laws::{advance_stands, answer_stands};
use adv_counts::Tally;
use adv_draws::Draws;
use adv_io::{Console, ConsoleFault, Line, Taken};
use scott_types::{Position, State};

/// Where a round left the play, and whether it stopped there.
#[derive(Clone, Copy)]
pub struct Round {
    pub position: Position,
    pub stopped: bool,
}

// Whether a play stands after a prompt.
pub fn is_prompt(position: Position) -> bool
    ensures { result ≡ is_prompt position }
{
    match position {
        Position::Line => true,
        _ => false,
    }
}

// Takes the next line and answers it, and gives where the play stands then; or finds that no line
// is left.
fn answer_next<C: Console>(
    game: &Game,
    state: &mut State,
    tally: &mut Tally,
    line: &mut Line,
    console: &mut C,
) -> Result<Option<Position>, ConsoleFault>
    requires { Fits game.now.db state.old }
    ensures as_rules { IfSome (C.seen console.old).left (λ lines.
        AnswersNext (C.seen console.old)
        (C.seen console.new) game.now lines result state.old state.new) }
    ensures falls { IfOk result (λ answered.
        IfSome answered (λ _. (C.seen console.new).bound < (C.seen console.old).bound)) }
    ensures bounded { (C.seen console.new).bound ≤ (C.seen console.old).bound }
    ensures cause { HasCause (C.seen console.old).faults (C.seen console.new).faults result }
    ensures tried { IfSome (C.seen console.old).left (λ lines.
        OnOk result (tally.new ≡ tallied (next_answer game.now lines state.old) tally.old)) }
    ensures fits { Fits game.now.db state.new }
    ensures ends { IfOk result (λ answered. IfSome answered (CanStand game.now.db)) }
{
    answer_stands();
    match console.take(line) {
        Ok(Taken::End) => Ok(None),
        Ok(Taken::Got) => match answer(game, state, tally, line, console) {
            Ok(position) => Ok(Some(position)),
            Err(fault) => Err(fault),
        },
        Err(fault) => Err(fault),
    }
}

// Everything up to the prompt, and the answer to the next line.
fn go_round<C: Console>(
    game: &Game,
    state: &mut State,
    tally: &mut Tally,
    position: Position,
    draws: &mut Draws,
    line: &mut Line,
    console: &mut C,
) -> Result<Round, ConsoleFault>
    requires fits { Fits game.now.db state.old }
    requires ends { CanStand game.now.db position }
    ensures as_rules { IfSome (C.seen console.old).left (λ lines.
        GoesRound (C.seen console.old) (C.seen console.new) result
        (go game.now position state.old lines draws.old.left)
        game.now state.new draws.new.left) }
    ensures falls { IfOk result (λ round. round.stopped ≡ false
        → (C.seen console.new).bound < (C.seen console.old).bound) }
    ensures bounded { (C.seen console.new).bound ≤ (C.seen console.old).bound }
    ensures cause { HasCause (C.seen console.old).faults (C.seen console.new).faults result }
    ensures taken { supplied draws.new ≡ supplied draws.old }
    ensures tried { IfSome (C.seen console.old).left (λ lines. IfOk result (λ round.
        IfSome (C.seen console.new).left (λ left. TalliesOn
        (go game.now position state.old lines draws.old.left) tally.old
        (from_there round.stopped game.now round.position state.new left draws.new.left)
        tally.new))) }
    ensures fits { Fits game.now.db state.new }
    ensures ends { IfOk result (λ round. CanStand game.now.db round.position) }
{
    advance_stands();
    let reached = advance(game, state, tally, position, draws, console)?;
    if !is_prompt(reached) {
        return Ok(Round {
            position: reached,
            stopped: true,
        });
    }
    match answer_next(game, state, tally, line, console) {
        Ok(None) => Ok(Round {
            position: reached,
            stopped: true,
        }),
        Ok(Some(position)) => Ok(Round {
            position,
            stopped: false,
        }),
        Err(fault) => Err(fault),
    }
}

/// Plays on from a position, until a line or a draw is wanted and none is left, or the game is
/// over, and tells where the play stands then.
///
/// The console's fault alone is a refusal; the state fits then too. docs/TURN.md, "Play", has the
/// rule.
pub fn play_on<C: Console>(
    game: &Game,
    state: &mut State,
    tally: &mut Tally,
    position: Position,
    draws: &mut Draws,
    console: &mut C,
) -> Result<Position, ConsoleFault>
    requires fits { Fits game.now.db state.old }
    requires ends { CanStand game.now.db position }
    ensures as_rules { IfSome (C.seen console.old).left (λ lines.
        PlaysOut (C.seen console.old) (C.seen console.new) result
        (go game.now position state.old lines draws.old.left)
        state.new draws.new.left) }
    ensures bounded { (C.seen console.new).bound ≤ (C.seen console.old).bound }
    ensures cause { HasCause (C.seen console.old).faults (C.seen console.new).faults result }
    ensures taken { supplied draws.new ≡ supplied draws.old }
    ensures tried { IfSome (C.seen console.old).left (λ lines. OnOk result
        (tally.new
        ≡ tallied (go game.now position state.old lines draws.old.left).events tally.old)) }
    ensures fits { Fits game.now.db state.new }
    ensures ends { IfOk result (CanStand game.now.db) }
{
    let mut line = Line::of(&[]);
    let mut position = position;
    loop {
        let round = go_round(game, state, tally, position, draws, &mut line, console)?;
        if round.stopped {
            return Ok(round.position);
        }
        position = round.position;
    }
}
