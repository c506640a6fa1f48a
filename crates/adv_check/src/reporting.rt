//! The text of the report.
ghost use Rattle.std.specs.Prelude.{◌≡◌, ◌++◌, IfOk, OnOk, decimal, codes};
ghost use Rattle.std.specs.List.{flat_map};
ghost use Rattle.adv_check.specs.Report.{counted, summary_text, place_text, what_text, warning_text, total_text, report_text};

use crate::findings::{Part, Warning, What};
use crate::searching::warnings;
use adv_io::Memory;
use adv_text::put_integer;
use itoa::Integer;
use scott_types::Db;
use std::alloc::Global;

// Writes words and a number after them.
fn put_counted<I: Integer>(
    alloc: Global,
    out: &mut Vec<u8>,
    words: &[u8],
    n: I,
) -> Result<(), Memory>
    ensures { OnOk result (out.new.items ≡ out.old.items ++ (words.now ++ I.text n)) }
{
    out.extend_from_slice(words)?;
    put_integer(alloc, out, n)?;
    Ok(())
}

// Writes how many entries each list has.
fn put_summary(alloc: Global, out: &mut Vec<u8>, db: &Db) -> Result<(), Memory>
    ensures { OnOk result (out.new.items ≡ out.old.items ++ summary_text db.now) }
{
    put_counted(alloc, out, b"rooms ", db.rooms().len())?;
    put_counted(alloc, out, b", items ", db.items().len())?;
    put_counted(alloc, out, b", lines ", db.actions().len())?;
    put_counted(alloc, out, b", words ", db.words().len())?;
    put_counted(alloc, out, b", messages ", db.messages().len())?;
    out.push(b'\n')?;
    Ok(())
}

// Writes where a warning is.
fn put_place(
    alloc: Global,
    out: &mut Vec<u8>,
    part: Part,
    index: u16,
    place: u8,
) -> Result<(), Memory>
    ensures { OnOk result (out.new.items ≡ out.old.items ++ place_text part index place) }
{
    match part {
        Part::Condition => {
            put_counted(alloc, out, b"line ", index)?;
            put_counted(alloc, out, b", condition ", place)
        }
        Part::Opcode => {
            put_counted(alloc, out, b"line ", index)?;
            put_counted(alloc, out, b", opcode ", place)
        }
        Part::Exit => {
            put_counted(alloc, out, b"room ", index)?;
            put_counted(alloc, out, b", exit ", place)
        }
        Part::Place => put_counted(alloc, out, b"item ", index),
    }
}

// Writes what is wrong.
fn put_what(alloc: Global, out: &mut Vec<u8>, what: What, value: i64) -> Result<(), Memory>
    ensures { OnOk result (out.new.items ≡ out.old.items ++ what_text what value) }
{
    match what {
        What::Item => put_counted(alloc, out, b"no item ", value),
        What::Room => put_counted(alloc, out, b"no room ", value),
        What::Flag => put_counted(alloc, out, b"no flag ", value),
        What::Backup => put_counted(alloc, out, b"no backup ", value),
        What::Message => put_counted(alloc, out, b"no message ", value),
        What::Unused => put_counted(alloc, out, b"unused ", value),
        What::NoParameter => {
            out.extend_from_slice(b"no parameter left")?;
            Ok(())
        }
    }
}

// Writes the line of a warning.
fn put_warning(alloc: Global, out: &mut Vec<u8>, warning: &Warning) -> Result<(), Memory>
    ensures { OnOk result (out.new.items ≡ out.old.items ++ warning_text warning.now) }
{
    put_place(alloc, out, warning.part, warning.index, warning.place)?;
    out.extend_from_slice(b": ")?;
    put_what(alloc, out, warning.what, warning.value)?;
    out.push(b'\n')?;
    Ok(())
}

// Writes a line for each warning.
fn put_warnings(alloc: Global, out: &mut Vec<u8>, found: &[Warning]) -> Result<(), Memory>
    ensures { OnOk result (out.new.items ≡ out.old.items ++ flat_map warning_text found.now) }
{
    for warning in found {
        put_warning(alloc, out, warning)?;
    }
    Ok(())
}

// Writes how many warnings there are.
fn put_total(alloc: Global, out: &mut Vec<u8>, found: &[Warning]) -> Result<(), Memory>
    ensures { OnOk result (out.new.items ≡ out.old.items ++ total_text found.now) }
{
    put_counted(alloc, out, b"warnings ", found.len())?;
    out.push(b'\n')?;
    Ok(())
}

/// The report on a database: the lengths of its lists, a line for each warning, and how many they
/// are.
///
/// docs/FORMAT.md has its text.
pub fn report(alloc: Global, db: &Db) -> Result<Vec<u8>, Memory>
    ensures { IfOk result (λ text. text.items ≡ report_text db.now) }
{
    let found = warnings(alloc, db)?;
    let mut out = Vec::new(alloc);
    put_summary(alloc, &mut out, db)?;
    put_warnings(alloc, &mut out, &found)?;
    put_total(alloc, &mut out, &found)?;
    Ok(out)
}
