//! The answer to a line.
ghost use Rattle.std.specs.Prelude.{◌≡◌, ◌++◌, IfOk, [], List, ℕ};
ghost use Rattle.adv_io.specs.Console.{Speaks};
ghost use Rattle.adv_io.specs.History.{says};
ghost use Rattle.scott_types.specs.declared.phrases.Phrase.TheVariants.{Prompt};
ghost use Rattle.scott_types.specs.Phrase.{text_of};
ghost use Rattle.scott_types.specs.State.{Fits};
ghost use Rattle.scott_rules.specs.Commands.{heard};
ghost use Rattle.scott_rules.specs.Rounds.{turn_ended, command_done, command_result, asked_again, unknown_word, by_heard};
ghost use Rattle.scott_vocab.specs.Heard.{IsEntry};
ghost use Rattle.scott_turn.specs.Done.{Does, Shows};

use crate::commands::do_command;
use crate::games::Game;
use crate::searching::Command;
use adv_counts::Tally;
use adv_io::{Console, ConsoleFault, Line, say_all};
use scott_light::count_light;
use scott_types::{Heard, Phrase, Position, State};
use scott_vocab::{command, typed_noun, word_at};

// After a command the light burns, where the game goes on, and a round begins.
fn end_turn<C: Console>(
    game: &Game,
    state: &mut State,
    over: Option<u8>,
    console: &mut C,
) -> Result<Position, ConsoleFault>
    requires { Fits game.now.db state.old }
    ensures does { Shows (C.seen console.old) (C.seen console.new) result
        (turn_ended game.now.style over state.old)
        (λ position. record { position = position; state = state.new }) }
    ensures fits { Fits game.now.db state.new }
{
    match over {
        None => {
            count_light(game.db(), game.style(), state, console)?;
            Ok(Position::Fresh)
        }
        Some(ending) => Ok(Position::Over(ending)),
    }
}

// Does a command, and ends the turn.
fn do_turn<C: Console>(
    game: &Game,
    state: &mut State,
    tally: &mut Tally,
    command: Command,
    typed: &[u8],
    console: &mut C,
) -> Result<Position, ConsoleFault>
    requires fits { Fits game.now.db state.old }
    requires there { IsEntry game.now.db command.noun }
    ensures does { Does (C.seen console.old) (C.seen console.new) result
        (command_done game.now.style
        (command_result game.now typed.now command.verb command.noun state.old))
        (λ position. record { position = position; state = state.new }) tally.old tally.new }
    ensures fits { Fits game.now.db state.new }
{
    let over = do_command(game, state, tally, command, typed, console)?;
    end_turn(game, state, over, console)
}

// Asks again after a blank line.
fn ask_again<C: Console>(console: &mut C) -> Result<Position, ConsoleFault>
    ensures spoken { Speaks (C.seen console.old) (C.seen console.new) result
        (says (text_of Prompt)) }
    ensures position { IfOk result (λ position. position ≡ Position.Line) }
{
    console.say(Phrase::Prompt.text())?;
    Ok(Position::Line)
}

// Says that a word isn't known, and asks again.
fn refuse_word<'a, C: Console>(word: &'a [u8], console: &mut C) -> Result<Position, ConsoleFault>
    ensures spoken { Speaks (C.seen console.old) (C.seen console.new) result
        (says (unknown_word word.now ++ text_of Prompt)) }
    ensures position { IfOk result (λ position. position ≡ Position.Line) }
{
    let opening: &'a [u8] = Phrase::UnknownOpening.text();
    let back: &'a [u8] = Phrase::UnknownBack.text();
    let prompt: &'a [u8] = Phrase::Prompt.text();
    say_all(console, &[opening, word, back, prompt])?;
    Ok(Position::Line)
}

/// Answers a line that was taken at the prompt, and gives where the play stands then: at a prompt
/// again, where a round begins, or at the game's end.
///
/// The console's fault alone is a refusal; the state fits then too. docs/TURN.md, "The round", has
/// the rule.
pub fn answer<C: Console>(
    game: &Game,
    state: &mut State,
    tally: &mut Tally,
    line: &Line,
    console: &mut C,
) -> Result<Position, ConsoleFault>
    requires { Fits game.now.db state.old }
    ensures does { Does (C.seen console.old) (C.seen console.new) result
        (by_heard (heard game.now.db line.now) game.now line.now state.old)
        (λ position. record { position = position; state = state.new }) tally.old tally.new }
    ensures fits { Fits game.now.db state.new }
{
    match command(game, line) {
        Heard::Blank => ask_again(console),
        Heard::Unknown(start, length) => refuse_word(word_at(line, start, length), console),
        Heard::Command(verb, noun) => {
            do_turn(
                game,
                state,
                tally,
                Command { verb, noun },
                typed_noun(line),
                console,
            )
        }
    }
}
