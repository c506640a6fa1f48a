//! Writing a database's text.
ghost use Rattle.std.specs.Prelude.{◌≡◌, ◌++◌, ◌∷◌, [], ◌≤◌, IfOk, OnOk, IsTrue, List, length, ℤ, pos, map};
ghost use Rattle.scott_types.specs.Database.{Database, database_of};
ghost use Rattle.scott_types.specs.Limits.{KeepsLimits, is_trailer};
ghost use Rattle.scott_format.specs.Canon.{line_text, header_line, header_numbers, trailer_line, highest, canon};

use crate::lines::{put_lines, put_number_and, put_numbers};
use adv_io::Memory;
use scott_types::{Db, Parts, Trailer};
use std::alloc::Global;

// The number of the last entry of a list.
fn highest<T>(entries: &[T]) -> i32
    requires some { 1 ≤ length entries.now }
    requires few { length entries.now ≤ 5000 }
    ensures { result ≡ highest entries.now }
{
    (entries.len() - 1) as i32
}

// The numbers of the header but the last.
fn header_numbers(parts: &Parts) -> [i32; 11]
    requires { KeepsLimits (database_of parts.now) }
    ensures { result ≡ header_numbers (database_of parts.now) }
{
    let header = &parts.header;
    [
        header.unused,
        highest(&parts.items),
        highest(&parts.actions),
        highest(&parts.words),
        highest(&parts.rooms),
        header.carry,
        i32::from(header.start),
        header.treasures,
        i32::from(header.length),
        header.light,
        highest(&parts.messages),
    ]
}

// Writes the line of the header.
fn put_header(alloc: Global, out: &mut Vec<u8>, parts: &Parts) -> Result<(), Memory>
    requires { KeepsLimits (database_of parts.now) }
    ensures { OnOk result (out.new.items ≡ out.old.items ++ line_text
        (header_line (database_of parts.now))) }
{
    put_numbers(alloc, out, &header_numbers(parts))?;
    put_number_and(alloc, out, parts.header.home, b'\n')
}

// Writes the line of the trailer.
fn put_trailer(alloc: Global, out: &mut Vec<u8>, trailer: &Trailer) -> Result<(), Memory>
    requires { IsTrue (is_trailer trailer.now) }
    ensures { OnOk result (out.new.items ≡ out.old.items ++ line_text (trailer_line trailer.now)) }
{
    put_numbers(alloc, out, &[trailer.version, trailer.adventure])?;
    put_number_and(alloc, out, trailer.third, b'\n')
}

/// Writes a database's text: each header, entry and trailer on a line, with one space between
/// numbers and strings.
///
/// The text reads back as the database, whatever follows it. docs/FORMAT.md has the rule.
pub fn write_db(alloc: Global, db: &Db) -> Result<Vec<u8>, Memory>
    ensures { IfOk result (λ text. text.items ≡ canon db.now) }
{
    let parts = db.parts();
    let mut out = Vec::new(alloc);
    put_header(alloc, &mut out, parts)?;
    put_lines(alloc, &mut out, &parts.actions)?;
    put_lines(alloc, &mut out, &parts.words)?;
    put_lines(alloc, &mut out, &parts.rooms)?;
    put_lines(alloc, &mut out, &parts.messages)?;
    put_lines(alloc, &mut out, &parts.items)?;
    put_lines(alloc, &mut out, &parts.comments)?;
    put_trailer(alloc, &mut out, &parts.trailer)?;
    Ok(out)
}
