//! Which routines are there: those that a line calls.
ghost use Rattle.std.specs.Prelude.{◌≡◌, ◌++◌, IfOk, map};
ghost use Rattle.std.specs.List.{list_any};
ghost use Rattle.inform_tree.specs.Programs.{directive_of};
ghost use Rattle.inform_codes.specs.Routines.{Row as CodeRow};
ghost use Rattle.trans_actions.specs.declared.table.Kind.TheVariants.{Opcode};
ghost use Rattle.trans_actions.specs.Helpers.{conditions as the_conditions, opcodes as the_opcodes, has_condition as the_condition, has_opcode as the_opcode, uses as the_uses, used_rows as the_used, helper_rows as the_rows, helper_directives, refill as the_refill};

use crate::conditions::CONDITIONS;
use crate::names::names;
use crate::numbers::numbers;
use crate::opcodes::{ENDLESS_REFILL, OPCODES, REFILL};
use adv_io::Memory;
use inform_codes::{Code, Row, routines};
use inform_tree::Directive;
use scott_types::action_lines::{condition_code, opcode_numbers};
use scott_types::{Action, Db, Style};
use std::alloc::Global;

/// The codes of conditions or the numbers of opcodes for which a routine is there, and the routine:
/// its name, its locals, and its codes.
pub type Helper = (&'static [u32], usize, &'static [usize], &'static [Code]);

/// What the numbers of a routine are.
#[derive(Clone, Copy)]
pub enum Kind {
    Condition,
    Opcode,
}

fn has_condition(action: &Action, code: u32) -> bool
    ensures { result ≡ the_condition code action.now }
{
    action
        .conds
        .iter()
        .any(|packed| u32::from(condition_code(*packed)) == code)
}

fn has_opcode(action: &Action, number: u32) -> bool
    ensures { result ≡ the_opcode number action.now }
{
    opcode_numbers(action).iter().any(|n| *n == number)
}

fn some_has_condition(actions: &[Action], code: u32) -> bool
    ensures { result ≡ list_any (the_condition code) actions.now }
{
    actions.iter().any(|action| has_condition(action, code))
}

fn some_has_opcode(actions: &[Action], number: u32) -> bool
    ensures { result ≡ list_any (the_opcode number) actions.now }
{
    actions.iter().any(|action| has_opcode(action, number))
}

// Whether a line has a condition of this code, or an opcode of this number.
fn uses(db: &Db, kind: Kind, number: u32) -> bool
    ensures { result ≡ the_uses kind db.now number }
{
    match kind {
        Kind::Condition => some_has_condition(db.actions(), number),
        Kind::Opcode => some_has_opcode(db.actions(), number),
    }
}

fn uses_any(db: &Db, kind: Kind, numbers: &[u32]) -> bool
    ensures { result ≡ list_any (the_uses kind db.now) numbers.now }
{
    numbers.iter().any(|number| uses(db, kind, *number))
}

// Those of these routines that are there.
fn used_rows(
    alloc: Global,
    db: &Db,
    kind: Kind,
    helpers: &[Helper],
) -> Result<Vec<Row<'static>>, Memory>
    ensures { IfOk result (λ rows. map (λ row. (row.0, row.1.now, row.2.now)) rows.items
        ≡ the_used (the_uses kind db.now)
        (map (λ h. (h.0.now, (h.1, h.2.now, h.3.now))) helpers.now)) }
{
    let mut rows = Vec::with_capacity(alloc, helpers.len())?;
    for helper in helpers {
        let (numbers, name, locals, codes) = *helper;
        if uses_any(db, kind, numbers) {
            rows.push((name, locals, codes))?;
        }
    }
    Ok(rows)
}

fn conditions() -> &'static [Helper]
    ensures { map (λ h. (h.0.now, (h.1, h.2.now, h.3.now))) result.now ≡ the_conditions }
{
    &CONDITIONS
}

fn opcodes() -> &'static [Helper]
    ensures { map (λ h. (h.0.now, (h.1, h.2.now, h.3.now))) result.now ≡ the_opcodes }
{
    &OPCODES
}

// By whether the light burns down.
fn refill(db: &Db) -> &'static [Helper]
    ensures { map (λ h. (h.0.now, (h.1, h.2.now, h.3.now))) result.now
        ≡ the_refill db.now.header.light }
{
    if db.header().light < 0 {
        &ENDLESS_REFILL
    } else {
        &REFILL
    }
}

fn joined(first: Vec<Row<'static>>, second: Vec<Row<'static>>) -> Result<Vec<Row<'static>>, Memory>
    ensures { IfOk result (λ rows.
        map {B = CodeRow} (λ row. (row.0, row.1.now, row.2.now)) rows.items
        ≡ map {B = CodeRow} (λ row. (row.0, row.1.now, row.2.now)) first.entry.items
        ++ map {B = CodeRow} (λ row. (row.0, row.1.now, row.2.now)) second.entry.items) }
{
    let mut rows = first;
    let mut others = second;
    rows.append(&mut others)?;
    Ok(rows)
}

fn opcode_rows(alloc: Global, db: &Db) -> Result<Vec<Row<'static>>, Memory>
    ensures { IfOk result (λ rows. map (λ row. (row.0, row.1.now, row.2.now)) rows.items
        ≡ the_used (the_uses Opcode db.now) the_opcodes
        ++ the_used (the_uses Opcode db.now) (the_refill db.now.header.light)) }
{
    let refilling = used_rows(alloc, db, Kind::Opcode, refill(db))?;
    joined(used_rows(alloc, db, Kind::Opcode, opcodes())?, refilling)
}

fn helper_rows(alloc: Global, db: &Db) -> Result<Vec<Row<'static>>, Memory>
    ensures { IfOk result (λ rows. map (λ row. (row.0, row.1.now, row.2.now)) rows.items
        ≡ the_rows db.now) }
{
    let others = opcode_rows(alloc, db)?;
    joined(used_rows(alloc, db, Kind::Condition, conditions())?, others)
}

/// The routines of conditions and opcodes that the lines of a game call, in a style.
pub fn helpers(alloc: Global, db: &Db, style: Style) -> Result<Vec<Directive>, Memory>
    ensures { IfOk result (λ directives. map directive_of directives.items
        ≡ helper_directives style db.now) }
{
    let names = names(alloc, style)?;
    let rows = helper_rows(alloc, db)?;
    routines(alloc, &names, &numbers(db), &rows)
}
