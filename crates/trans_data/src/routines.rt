//! The routines whose codes are fixed, or chosen by the style or a sign, as a table.
ghost use Rattle.std.specs.Prelude.{◌≡◌, ◌++◌, IfOk, map};
ghost use Rattle.scott_types.specs.Phrase.{text_of, text_in};
ghost use Rattle.inform_tree.specs.Programs.{directive_of};
ghost use Rattle.inform_codes.specs.Routines.{rows_directives};
ghost use Rattle.trans_data.specs.Routines.{routine_names, table_rows, chosen_rows, hundredths_codes as the_hundredths, light_codes as the_light, out_codes as the_out, fixed_directives};

use crate::helpers::{CARRIED, COUNT, DARK, FULL, NEAR, PLACE};
use crate::lights::{BURN, COUNTED_LIGHT, DIM_LIGHT, OUT, VANISHED};
use crate::listing::{INVENTORY, LISTED_EXITS, LISTED_ITEMS, LOOK, WAY};
use crate::names::{
    AT, BURN_NAME, CARRIED_NAME, COUNT_NAME, DARK_NAME, FULL_NAME, HUNDREDTHS_NAME, I,
    INVENTORY_NAME, LIGHT_OUT, LIST_EXITS, LIST_ITEMS, LOOK_NAME, N, NAMES, NEAR_NAME, PLACE_NAME,
    PLAIN, SAY_LIGHT, SAY_WAY, SCORE_NAME, STORED_NAME, STYLED,
};
use crate::numbers::numbers;
use crate::scoring::{HUNDREDTHS, LESS_HUNDREDTHS, SCORE, STORED};
use adv_io::Memory;
use inform_codes::{Code, Row, joined, routines};
use inform_tree::Directive;
use scott_types::{Db, Phrase, Style};
use std::alloc::Global;

/// The routines of a fixed number of codes, each with its locals.
pub const ROUTINES: [Row<'static>; 14] = [
    (PLACE_NAME, &[I], &PLACE),
    (NEAR_NAME, &[I], &NEAR),
    (DARK_NAME, &[], &DARK),
    (COUNT_NAME, &[AT, I, N], &COUNT),
    (CARRIED_NAME, &[], &CARRIED),
    (FULL_NAME, &[], &FULL),
    (SAY_WAY, &[I], &WAY),
    (LIST_ITEMS, &[AT, I, N], &LISTED_ITEMS),
    (LIST_EXITS, &[I, N], &LISTED_EXITS),
    (LOOK_NAME, &[], &LOOK),
    (INVENTORY_NAME, &[], &INVENTORY),
    (STORED_NAME, &[I, N], &STORED),
    (SCORE_NAME, &[N], &SCORE),
    (BURN_NAME, &[], &BURN),
];

// Names, and after them texts as a style tells them.
fn with_styled(
    mut names: Vec<&'static [u8]>,
    style: Style,
    phrases: &[Phrase],
) -> Result<Vec<&'static [u8]>, Memory>
    ensures { IfOk result (λ all. map (λ n. n.now) all.items
        ≡ map (λ n. n.now) names.entry.items ++ map (text_in style) phrases.now) }
{
    for phrase in phrases {
        names.push(phrase.text_in(style))?;
    }
    Ok(names)
}

// Names, and after them texts that are the same in each style.
fn with_plain(
    mut names: Vec<&'static [u8]>,
    phrases: &[Phrase],
) -> Result<Vec<&'static [u8]>, Memory>
    ensures { IfOk result (λ all. map (λ n. n.now) all.items
        ≡ map (λ n. n.now) names.entry.items ++ map text_of phrases.now) }
{
    for phrase in phrases {
        names.push(phrase.text())?;
    }
    Ok(names)
}

// The names, and the texts of a style.
#[tactic(auto, unfolding(crate::specs::Routines::routine_names))]
fn routine_names(alloc: Global, style: Style) -> Result<Vec<&'static [u8]>, Memory>
    ensures { IfOk result (λ names. map (λ n. n.now) names.items ≡ routine_names style) }
{
    let names = Vec::from_slice(alloc, &NAMES)?;
    with_plain(with_styled(names, style, &STYLED)?, &PLAIN)
}

fn hundredths_codes(treasures: i32) -> &'static [Code]
    ensures { result.now ≡ the_hundredths treasures }
{
    if treasures < 0 {
        &LESS_HUNDREDTHS
    } else {
        &HUNDREDTHS
    }
}

fn light_codes(counted: bool) -> &'static [Code]
    ensures { result.now ≡ the_light counted }
{
    if counted { &COUNTED_LIGHT } else { &DIM_LIGHT }
}

fn out_codes(vanish: bool) -> &'static [Code]
    ensures { result.now ≡ the_out vanish }
{
    if vanish { &VANISHED } else { &OUT }
}

// The routines of the table.
#[tactic(auto, unfolding(crate::specs::Routines::table_rows))]
fn table_directives(alloc: Global, names: &[&[u8]], given: &[u32]) -> Result<Vec<Directive>, Memory>
    ensures { IfOk result (λ directives. map directive_of directives.items
        ≡ rows_directives (map (λ n. n.now) names.now) given.now table_rows) }
{
    routines(alloc, names, given, &ROUTINES)
}

// Those that are chosen.
fn chosen_directives(
    alloc: Global,
    names: &[&[u8]],
    given: &[u32],
    db: &Db,
    style: Style,
) -> Result<Vec<Directive>, Memory>
    ensures { IfOk result (λ directives. map directive_of directives.items
        ≡ rows_directives (map (λ n. n.now) names.now) given.now (chosen_rows style db.now)) }
{
    let chosen: [Row<'static>; 3] = [
        (
            HUNDREDTHS_NAME,
            &[N],
            hundredths_codes(db.header().treasures),
        ),
        (SAY_LIGHT, &[], light_codes(style.counted)),
        (LIGHT_OUT, &[], out_codes(style.vanish)),
    ];
    routines(alloc, names, given, &chosen)
}

/// The routines, each as a directive: first those of the table, and then those that are chosen.
pub fn fixed_directives(alloc: Global, db: &Db, style: Style) -> Result<Vec<Directive>, Memory>
    ensures { IfOk result (λ directives. map directive_of directives.items
        ≡ fixed_directives style db.now) }
{
    let names = routine_names(alloc, style)?;
    let given = numbers(db);
    joined(
        table_directives(alloc, names.as_slice(), &given)?,
        chosen_directives(alloc, names.as_slice(), &given, db, style)?,
    )
}
