//! What is done up to the prompt.
ghost use Rattle.std.specs.Prelude.{◌≡◌, ◌+◌, ◌++◌, IfOk, [], length};
ghost use Rattle.adv_draws.specs.Supply.{supplied};
ghost use Rattle.adv_io.specs.Console.{Speaks};
ghost use Rattle.scott_types.specs.State.{Fits};
ghost use Rattle.adv_io.specs.Steps.{said_steps, shown_of};
ghost use Rattle.scott_rules.specs.Groups.{groups, groups_from, automatic};
ghost use Rattle.scott_rules.specs.Rounds.{look_due, unmarked, prompted, to_prompt, advance};
ghost use Rattle.scott_types.specs.declared.phrases.Phrase.TheVariants.{Prompt};
ghost use Rattle.scott_types.specs.declared.endings.Position.TheVariants.{Fresh};
ghost use Rattle.scott_types.specs.Phrase.{text_of};
ghost use Rattle.scott_turn.specs.Done.{Does, Shows};

use crate::automatic::automatic;
use crate::games::Game;
use crate::saying::say_text;
use adv_counts::Tally;
use adv_draws::Draws;
use adv_io::{Console, ConsoleFault};
use scott_light::look;
use scott_types::{Halt, Phrase, Position, State};

// Clears the mark that the room is to be described.
fn unmark(state: &mut State) -> bool
    ensures due { result ≡ state.old.redraw }
    ensures state { state.new ≡ unmarked state.old }
{
    let due = state.redraw;
    state.redraw = false;
    due
}

// A look where one is due.
fn look_if_due<C: Console>(
    game: &Game,
    state: &mut State,
    console: &mut C,
) -> Result<(), ConsoleFault>
    requires { Fits game.now.db state.old }
    ensures spoken { Speaks (C.seen console.old) (C.seen console.new) result
        (shown_of (said_steps (look_due game.now state.old))) }
    ensures state { state.new ≡ unmarked state.old }
    ensures fits { Fits game.now.db state.new }
{
    if unmark(state) {
        look(game.db(), game.style(), state, console)
    } else {
        say_text(&[], console)
    }
}

// A look where one is due, and the prompt.
fn prompt<C: Console>(
    game: &Game,
    state: &mut State,
    console: &mut C,
) -> Result<Position, ConsoleFault>
    requires { Fits game.now.db state.old }
    ensures spoken { Speaks (C.seen console.old) (C.seen console.new) result
        (shown_of (said_steps (look_due game.now state.old ++ text_of Prompt))) }
    ensures state { state.new ≡ unmarked state.old }
    ensures position { IfOk result (λ position. position ≡ Position.Line) }
    ensures fits { Fits game.now.db state.new }
{
    look_if_due(game, state, console)?;
    say_text(Phrase::Prompt.text(), console)?;
    Ok(Position::Line)
}

// What follows the automatic step: the prompt, where the step came through.
fn go_to_prompt<C: Console>(
    game: &Game,
    state: &mut State,
    halt: Halt,
    console: &mut C,
) -> Result<Position, ConsoleFault>
    requires { Fits game.now.db state.old }
    ensures does { Shows (C.seen console.old) (C.seen console.new) result
        (prompted halt game.now state.old [])
        (λ position. record { position = position; state = state.new; draws = [] }) }
    ensures fits { Fits game.now.db state.new }
{
    match halt {
        Halt::Through => prompt(game, state, console),
        Halt::Waits(head) => Ok(Position::Draw(head)),
        Halt::Over(ending) => Ok(Position::Over(ending)),
    }
}

// The automatic step from a line on, and what follows it.
fn advance_from<C: Console>(
    game: &Game,
    state: &mut State,
    tally: &mut Tally,
    from: u16,
    draws: &mut Draws,
    console: &mut C,
) -> Result<Position, ConsoleFault>
    requires { Fits game.now.db state.old }
    ensures does { Does (C.seen console.old) (C.seen console.new) result
        (to_prompt game.now
        (automatic game.now (groups_from game.now.db from) state.old draws.old.left))
        (λ position. record { position = position; state = state.new; draws = draws.new.left })
        tally.old tally.new }
    ensures taken { supplied draws.new ≡ supplied draws.old }
    ensures fits { Fits game.now.db state.new }
{
    let halt = automatic(game, state, tally, from, draws, console)?;
    go_to_prompt(game, state, halt, console)
}

// A round begins.
fn begin<C: Console>(
    game: &Game,
    state: &mut State,
    tally: &mut Tally,
    draws: &mut Draws,
    console: &mut C,
) -> Result<Position, ConsoleFault>
    requires { Fits game.now.db state.old }
    ensures does { Does (C.seen console.old) (C.seen console.new) result
        (advance game.now Position.Fresh state.old draws.old.left)
        (λ position. record { position = position; state = state.new; draws = draws.new.left })
        tally.old tally.new }
    ensures taken { supplied draws.new ≡ supplied draws.old }
    ensures fits { Fits game.now.db state.new }
{
    look_if_due(game, state, console)?;
    advance_from(game, state, tally, 0, draws, console)
}

/// Everything up to the prompt, from where a play stands.
///
/// The console's fault alone is a refusal; the state fits then too. docs/TURN.md, "The round", has
/// the rule.
pub fn advance<C: Console>(
    game: &Game,
    state: &mut State,
    tally: &mut Tally,
    position: Position,
    draws: &mut Draws,
    console: &mut C,
) -> Result<Position, ConsoleFault>
    requires { Fits game.now.db state.old }
    ensures does { Does (C.seen console.old) (C.seen console.new) result
        (advance game.now position state.old draws.old.left)
        (λ reached. record { position = reached; state = state.new; draws = draws.new.left })
        tally.old tally.new }
    ensures taken { supplied draws.new ≡ supplied draws.old }
    ensures fits { Fits game.now.db state.new }
{
    match position {
        Position::Fresh => begin(game, state, tally, draws, console),
        Position::Draw(head) => advance_from(game, state, tally, head, draws, console),
        Position::Line => Ok(Position::Line),
        Position::Over(ending) => Ok(Position::Over(ending)),
    }
}
