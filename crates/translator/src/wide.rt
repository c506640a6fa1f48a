//! Numbers that are too wide for the words of a translated game.
ghost use Rattle.std.specs.Prelude.{◌≡◌, ◌+◌, ◌<◌, length, find};
ghost use Rattle.trans_specs.specs.Wide.{is_word_of, is_too_wide, wide_at};
ghost use Rattle.translator.specs.LineByLine as l;

use inform_tree::Width;
use scott_types::Db;
use scott_types::action_lines::{argument_of, verb_of};
use scott_types::parts::{Action, Header};
use trans_specs::Place;

// Whether a number is a word of this width.
fn is_word(width: Width, value: i64) -> bool
    ensures { result ≡ is_word_of width value }
{
    match width {
        Width::W16 => -32_768 <= value && value <= 32_767,
        Width::W32 => -2_147_483_648 <= value && value <= 2_147_483_647,
    }
}

fn is_too_wide(width: Width, placed: (Place, i64)) -> bool
    ensures { result ≡ is_too_wide width placed }
{
    !is_word(width, placed.1)
}

// The first of these numbers that is too wide.
fn first_wide(width: Width, placed: &[(Place, i64)]) -> Option<(Place, i64)>
    ensures { result ≡ find (is_too_wide width) placed.now }
{
    placed
        .iter()
        .copied()
        .find(|number| is_too_wide(width, *number))
}

#[tactic(auto, unfolding(crate::specs::LineByLine::wide_in_header))]
fn wide_in_header(width: Width, header: &Header) -> Option<(Place, i64)>
    ensures { result ≡ l.wide_in_header width header.now }
{
    let placed = [
        (Place::Carry, header.carry as i64),
        (Place::Treasures, header.treasures as i64),
        (Place::Light, header.light as i64),
        (Place::Home, header.home as i64),
    ];
    first_wide(width, &placed)
}

// The numbers of line k.
#[tactic(auto, unfolding(crate::specs::LineByLine::wide_in_line))]
fn wide_in_action(width: Width, k: u16, action: &Action) -> Option<(Place, i64)>
    ensures { result ≡ l.wide_in_line width k action.now }
{
    let [first, second, third, fourth, fifth] = action.conds;
    let [one, other] = action.pairs;
    let placed = [
        (Place::Verb(k), verb_of(action.vocab) as i64),
        (Place::Condition(k, 1), argument_of(first) as i64),
        (Place::Condition(k, 2), argument_of(second) as i64),
        (Place::Condition(k, 3), argument_of(third) as i64),
        (Place::Condition(k, 4), argument_of(fourth) as i64),
        (Place::Condition(k, 5), argument_of(fifth) as i64),
        (Place::Opcode(k, 1), (one / 150) as i64),
        (Place::Opcode(k, 3), (other / 150) as i64),
    ];
    first_wide(width, &placed)
}

// The numbers of these lines, of which the first has number k.
fn wide_in_actions(width: Width, k: u16, actions: &[Action]) -> Option<(Place, i64)>
    requires { k + length actions.now < 65536 }
    ensures { result ≡ l.wide_in_lines width k actions.now }
{
    let [first, rest @ ..] = actions else {
        return None;
    };
    match wide_in_action(width, k, first) {
        Some(found) => Some(found),
        None => wide_in_actions(width, k + 1, rest),
    }
}

fn wide_in_game(width: Width, db: &Db) -> Option<(Place, i64)>
    ensures { result ≡ l.wide_in_game width db.now }
{
    match wide_in_header(width, db.header()) {
        Some(found) => Some(found),
        None => wide_in_actions(width, 0, db.actions()),
    }
}

/// The first number, in the order of the file, that is no word of this width, with its place.
/// docs/INFORM.md says which numbers a translated game needs as words.
pub fn wide_at(db: &Db, width: Width) -> Option<(Place, i64)>
    ensures { result ≡ wide_at width db.now }
{
    wide_in_game(width, db)
}
