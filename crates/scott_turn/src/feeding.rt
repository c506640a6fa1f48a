//! A play whose lines are fed, one by one.
ghost use Rattle.std.specs.Prelude.{◌≡◌, ◌+◌, IfOk, length, true, OnOk};
ghost use Rattle.adv_draws.specs.Supply.{supplied};
ghost use Rattle.adv_io.specs.Console.{Speaks};
ghost use Rattle.scott_types.specs.State.{Fits};
ghost use Rattle.scott_rules.specs.Play.{go};
ghost use Rattle.scott_turn.specs.Rounds.{is_prompt};
ghost use Rattle.scott_turn.specs.Fed.{given, said, after_line};
ghost use Rattle.scott_turn.specs.Tried.{tallied};
ghost use Rattle.scott_turn.specs.Done.{Does};

use crate::advancing::advance;
use crate::answering::answer;
use crate::games::Game;
use crate::rounds::is_prompt;
use adv_counts::Tally;
use adv_draws::Draws;
use adv_io::{Console, ConsoleFault, Line};
use scott_rules::laws::play_spends;
use scott_types::{Position, State};

// Answers a line that was fed at the prompt, and goes on to the next prompt.
fn answer_and_advance<C: Console>(
    game: &Game,
    state: &mut State,
    tally: &mut Tally,
    draws: &mut Draws,
    line: &Line,
    console: &mut C,
) -> Result<Position, ConsoleFault>
    requires { Fits game.now.db state.old }
    ensures does { Does (C.seen console.old) (C.seen console.new) result
        (after_line true game.now line.now Position.Line state.old draws.old.left)
        (λ reached. record { position = reached; state = state.new; draws = draws.new.left })
        tally.old tally.new }
    ensures taken { supplied draws.new ≡ supplied draws.old }
    ensures fits { Fits game.now.db state.new }
{
    let position = answer(game, state, tally, line, console)?;
    advance(game, state, tally, position, draws, console)
}

// The same where the play stands after a prompt; elsewhere the line is dropped.
fn feed_line<C: Console>(
    game: &Game,
    state: &mut State,
    tally: &mut Tally,
    position: Position,
    draws: &mut Draws,
    line: &Line,
    console: &mut C,
) -> Result<Position, ConsoleFault>
    requires { Fits game.now.db state.old }
    ensures does { let b = is_prompt position in
        Does (C.seen console.old) (C.seen console.new) result
        (after_line b game.now line.now position state.old draws.old.left)
        (λ reached. record { position = reached; state = state.new; draws = draws.new.left })
        tally.old tally.new }
    ensures taken { supplied draws.new ≡ supplied draws.old }
    ensures fits { Fits game.now.db state.new }
{
    if is_prompt(position) {
        answer_and_advance(game, state, tally, draws, line, console)
    } else {
        Ok(position)
    }
}

/// Goes on from a position as a play does whose lines are the one that is fed, or none, and answers
/// where the play stands then. No line is taken from the console, and one that the play doesn't
/// come to take is dropped.
///
/// The console's fault alone is a refusal; the state fits then too. docs/TURN.md, "Play", has the
/// rule.
pub fn feed<C: Console>(
    game: &Game,
    state: &mut State,
    tally: &mut Tally,
    position: Position,
    draws: &mut Draws,
    line: Option<&Line>,
    console: &mut C,
) -> Result<Position, ConsoleFault>
    requires { Fits game.now.db state.old }
    ensures spoken { Speaks (C.seen console.old) (C.seen console.new) result
        (said (go game.now position state.old (given line.entry) draws.old.left).events) }
    ensures tried { OnOk result
        (tally.new
        ≡ tallied (go game.now position state.old (given line.entry) draws.old.left).events
        tally.old) }
    ensures left { let t = go game.now position state.old (given line.entry) draws.old.left in
        IfOk result (λ reached. t.value ≡ record {
          position = reached;
          state = state.new;
          lines = t.value.lines;
          draws = draws.new.left;
        }) }
    ensures taken { supplied draws.new ≡ supplied draws.old }
    ensures fits { Fits game.now.db state.new }
{
    play_spends();
    let reached = advance(game, state, tally, position, draws, console)?;
    match line {
        None => Ok(reached),
        Some(line) => feed_line(game, state, tally, reached, draws, line, console),
    }
}
