//! The routines of a table.
ghost use Rattle.std.specs.Prelude.{◌≡◌, ◌++◌, IfOk, map};
ghost use Rattle.inform_tree.specs.Programs.{directive_of, routine_of};
ghost use Rattle.inform_codes.specs.Codes.{name_in};
ghost use Rattle.inform_codes.specs.Routines.{row_routine, rows_directives};

use crate::codes::Code;
use crate::growing::body;
use crate::taking::name_at;
use adv_io::Memory;
use inform_tree::{Directive, Name, Routine};
use std::alloc::Global;

/// A routine: the place of its name, those of its locals, and the codes of its body.
pub type Row<'a> = (usize, &'a [usize], &'a [Code]);

fn names_at(alloc: Global, names: &[&[u8]], places: &[usize]) -> Result<Vec<Name>, Memory>
    ensures { IfOk result (λ found. found.items
        ≡ map (name_in (map (λ n. n.now) names.now)) places.now) }
{
    let mut found = Vec::with_capacity(alloc, places.len())?;
    for at in places {
        found.push(name_at(alloc, names, *at)?)?;
    }
    Ok(found)
}

fn routine(alloc: Global, names: &[&[u8]], given: &[u32], row: &Row<'_>) -> Result<Routine, Memory>
    ensures { IfOk result (λ routine. routine_of routine
        ≡ row_routine (map (λ n. n.now) names.now) given.now
        (row.now.0, row.now.1.now, row.now.2.now)) }
{
    let (name, locals, codes) = *row;
    Ok(Routine {
        name: name_at(alloc, names, name)?,
        locals: names_at(alloc, names, locals)?,
        body: body(alloc, names, given, codes)?,
    })
}

/// The routines of a table, each as a directive, in the order of the rows.
pub fn routines(
    alloc: Global,
    names: &[&[u8]],
    given: &[u32],
    rows: &[Row<'_>],
) -> Result<Vec<Directive>, Memory>
    ensures { IfOk result (λ directives. map directive_of directives.items
        ≡ rows_directives (map (λ n. n.now) names.now) given.now
        (map (λ row. (row.0, row.1.now, row.2.now)) rows.now)) }
{
    let mut directives = Vec::with_capacity(alloc, rows.len())?;
    for row in rows {
        directives.push(Directive::Routine(routine(alloc, names, given, row)?))?;
    }
    Ok(directives)
}

/// Two lists of directives, one after the other.
pub fn joined(first: Vec<Directive>, second: Vec<Directive>) -> Result<Vec<Directive>, Memory>
    ensures { IfOk result (λ all. map directive_of all.items
        ≡ map directive_of first.items ++ map directive_of second.items) }
{
    let mut all = first;
    let mut others = second;
    all.append(&mut others)?;
    Ok(all)
}
