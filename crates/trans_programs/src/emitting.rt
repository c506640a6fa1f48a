//! The whole program of a game.
ghost use Rattle.std.specs.Prelude.{◌≡◌, ◌++◌, IfOk, None, map, option_map};
ghost use Rattle.inform_tree.specs.Programs.{directive_of, program_of};
ghost use Rattle.scott_types.specs.State.{Fits};
ghost use Rattle.trans_specs.specs.Directives.{data_directives};
ghost use Rattle.trans_specs.specs.Faithful.{opening_state};
ghost use Rattle.trans_specs.specs.Wide.{wide_at};
ghost use Rattle.trans_data.specs.Texts.{text_directives};
ghost use Rattle.trans_words.specs.Directives.{word_directives};
ghost use Rattle.trans_actions.specs.Directives.{action_directives};
ghost use Rattle.trans_turn.specs.Routines.{turn_directives};
ghost use Rattle.trans_programs.specs.Programs.{game_program};

use adv_io::Memory;
use inform_codes::joined;
use inform_tree::{Directive, Program, Width};
use scott_types::{Db, Position, State, Style};
use std::alloc::Global;
use trans_actions::actions;
use trans_data::tables;
use trans_turn::turn;
use trans_words::words;

// The directives of a game that opens in this state and at this position.
fn directives(
    alloc: Global,
    db: &Db,
    style: Style,
    width: Width,
    state: &State,
    begin: Position,
) -> Result<Vec<Directive>, Memory>
    requires fits { Fits db.now state.now }
    requires narrow { wide_at width db.now ≡ None }
    ensures { IfOk result (λ directives. map directive_of directives.items
        ≡ data_directives db.now state.now ++ (text_directives style db.now
        ++ (word_directives db.now ++ (action_directives style db.now
        ++ turn_directives style db.now begin)))) }
{
    let data = tables(alloc, db, style, width, state)?;
    let reading = words(alloc, db)?;
    let acting = actions(alloc, db, style)?;
    let turning = turn(alloc, db, style, width, begin)?;
    let playing = joined(acting, turning)?;
    let speaking = joined(reading, playing)?;
    let all = joined(data, speaking)?;
    Ok(all)
}

/// The program of a game that opens at its beginning, or after a prompt in a state that is handed
/// in. No number is too wide for words of the width.
pub fn program(
    alloc: Global,
    db: &Db,
    style: Style,
    width: Width,
    from: Option<&State>,
) -> Result<Program, Memory>
    requires fits { Fits db.now (opening_state db.now (option_map (λ s. s.now) from)) }
    requires narrow { wide_at width db.now ≡ None }
    ensures { IfOk result (λ program. program_of program
        ≡ game_program style db.now (option_map (λ s. s.now) from.entry)) }
{
    let directives = match from {
        None => {
            let state = State::start(db);
            directives(alloc, db, style, width, &state, Position::Fresh)?
        }
        Some(state) => directives(alloc, db, style, width, state, Position::Line)?,
    };
    Ok(Program { directives })
}
