//! The routines of a round as directives.
ghost use Rattle.std.specs.Prelude.{◌≡◌, [], ◌∷◌, IfOk, None, map};
ghost use Rattle.inform_tree.specs.Programs.{directive_of};
ghost use Rattle.inform_codes.specs.Routines.{rows_directives};
ghost use Rattle.trans_specs.specs.Wide.{wide_at};
ghost use Rattle.trans_turn.specs.Routines as s;
ghost use Rattle.trans_turn.specs.Routines.{turn_names, first_asked, round_directives, turn_directives};

use crate::codes::ROUNDS;
use crate::names::NAMES;
use adv_io::Memory;
use inform_codes::{Row, joined, routines};
use inform_tree::{Directive, Width};
use scott_types::{Db, Phrase, Position, Style};
use std::alloc::Global;
use trans_commands::commands;
use trans_groups::groups_tried;

// A table of routines over the names and these texts.
fn grown(
    alloc: Global,
    names: &[&'static [u8]],
    asked: u32,
    rows: &[Row<'static>],
) -> Result<Vec<Directive>, Memory>
    requires { map (λ n. n.now) names.now ≡ turn_names }
    ensures { IfOk result (λ directives. map directive_of directives.items
        ≡ rows_directives turn_names (asked ∷ [])
        (map (λ row. (row.0, row.1.now, row.2.now)) rows.now)) }
{
    routines(alloc, names, &[asked], rows)
}

// The names, and then the texts.
fn all_names(alloc: Global) -> Result<Vec<&'static [u8]>, Memory>
    ensures { IfOk result (λ names. map (λ n. n.now) names.items ≡ turn_names) }
{
    let mut names = Vec::from_slice(alloc, &NAMES)?;
    names.push(Phrase::Prompt.text())?;
    names.push(Phrase::UnknownOpening.text())?;
    names.push(Phrase::UnknownBack.text())?;
    Ok(names)
}

// What the first round is told: 1 where the prompt was said.
fn first_argument(begin: Position) -> u32
    ensures { result ≡ first_asked begin }
{
    match begin {
        Position::Line => 1,
        _ => 0,
    }
}

#[tactic(auto, unfolding(crate::specs::Routines::rounds_asking))]
fn rounds_asking(alloc: Global, asked: u32) -> Result<Vec<Directive>, Memory>
    ensures { IfOk result (λ directives.
        map directive_of directives.items ≡ s.rounds_asking asked) }
{
    let names = all_names(alloc)?;
    grown(alloc, &names, asked, &ROUNDS)
}

/// The routines of a round and of all rounds, the first of which begins at this position: `Fresh`
/// or `Line`. docs/INFORM.md says what a translated game looks like.
pub fn rounds(alloc: Global, begin: Position) -> Result<Vec<Directive>, Memory>
    ensures { IfOk result (λ directives. map directive_of directives.items
        ≡ round_directives begin) }
{
    rounds_asking(alloc, first_argument(begin))
}

/// All routines of a turn: those that try groups, the commands, and the rounds, the first of which
/// begins at this position. No number is too wide for words of the width.
pub fn turn(
    alloc: Global,
    db: &Db,
    style: Style,
    width: Width,
    begin: Position,
) -> Result<Vec<Directive>, Memory>
    requires { wide_at width db.now ≡ None }
    ensures { IfOk result (λ directives. map directive_of directives.items
        ≡ turn_directives style db.now begin) }
{
    let _ = width;
    let trying = groups_tried(alloc, db)?;
    let commanding = commands(alloc, db, style)?;
    let going = rounds(alloc, begin)?;
    let playing = joined(commanding, going)?;
    let all = joined(trying, playing)?;
    Ok(all)
}
