//! The text of a translated game.
ghost use Rattle.std.specs.Prelude.{◌≡◌, None, IfOk, IfSome, option_map};
ghost use Rattle.scott_types.specs.Limits.{KeepsLimits};
ghost use Rattle.scott_types.specs.State.{Fits};
ghost use Rattle.trans_specs.specs.Faithful.{opening_state};
ghost use Rattle.trans_specs.specs.Wide as w;
ghost use Rattle.translator.specs.Answers.{refused};
ghost use Rattle.translator.specs.Faithful.{Faithful};

use crate::faults::TransFault;
use crate::laws::programs_are_faithful;
use crate::wide::wide_at;
use adv_io::Memory;
use inform_printer::print;
use inform_tree::Width;
use scott_types::laws::start_fits;
use scott_types::{Db, State, Style};
use std::alloc::Global;
use trans_programs::laws::programs_are_formed;
use trans_programs::program;

// The text of the program of a game that can be translated.
fn text(
    alloc: Global,
    db: &Db,
    style: Style,
    width: Width,
    from: Option<&State>,
) -> Result<Vec<u8>, Memory>
    requires limits { KeepsLimits db.now }
    requires none_wide { w.wide_at width db.now ≡ None }
    requires fits { Fits db.now (opening_state db.now (option_map (λ s. s.now) from)) }
    ensures { IfOk result (λ bytes. Faithful style width db.now
        (option_map (λ s. s.now) from.entry) bytes.items) }
{
    programs_are_formed();
    programs_are_faithful();
    let program = program(alloc, db, style, width, from)?;
    print(alloc, &program)
}

// Whether a game can be translated.
fn test_game(db: &Db, width: Width) -> Result<(), TransFault>
    ensures { refused result ≡ w.wide_at width db.now }
{
    match wide_at(db, width) {
        Some((place, value)) => Err(TransFault::Wide(place, value)),
        None => Ok(()),
    }
}

/// The text of an Inform program that is faithful to the database: a game in this style, with words
/// of this width, which opens with the first round, or after a prompt in the state that is handed
/// in, which fits the database.
///
/// A game with a number that is too wide is refused, before memory is taken: docs/INFORM.md.
pub fn translate(
    alloc: Global,
    db: &Db,
    style: Style,
    width: Width,
    from: Option<&State>,
) -> Result<Vec<u8>, TransFault>
    requires fits { IfSome from (λ s. Fits db.now s.now) }
    ensures refused { refused result ≡ w.wide_at width db.now }
    ensures faithful { IfOk result (λ bytes. Faithful style width db.now
        (option_map (λ s. s.now) from.entry) bytes.items) }
{
    test_game(db, width)?;
    let _ = db.parts();
    start_fits();
    text(alloc, db, style, width, from).map_err(|_| TransFault::Memory)
}
