//! The directives of the word reader of a database.
ghost use Rattle.std.specs.Prelude.{◌≡◌, IfOk, map};
ghost use Rattle.inform_tree.specs.Programs.{directive_of};
ghost use Rattle.trans_specs.specs.Tables.{or_zero};
ghost use Rattle.scott_rules.specs.Words.{which};
ghost use Rattle.trans_words.specs.Directives.{numbers, line_directives, column_directives, word_directives};

use crate::{columns, lines};
use adv_io::Memory;
use inform_codes::{joined, routines};
use inform_tree::Directive;
use scott_types::{Column, Db};
use scott_vocab::which;
use std::alloc::Global;

// The entry that a word names, or 0.
fn named(db: &Db, column: Column, word: &[u8]) -> u32
    ensures { result ≡ or_zero (which db.now column word.now) }
{
    match which(db, column, word) {
        Some(entry) => entry as u32,
        None => 0,
    }
}

// What is handed in to the routines of a column.
fn numbers(db: &Db, column: Column) -> [u32; 9]
    ensures { result ≡ numbers db.now column }
{
    [
        db.header().length as u32,
        db.words().len() as u32,
        named(db, column, b"north"),
        named(db, column, b"south"),
        named(db, column, b"east"),
        named(db, column, b"west"),
        named(db, column, b"up"),
        named(db, column, b"down"),
        named(db, column, b"inventory"),
    ]
}

// The routines that find the words of a column.
fn column_directives(alloc: Global, db: &Db, column: Column) -> Result<Vec<Directive>, Memory>
    ensures { IfOk result (λ directives. map directive_of directives.items
        ≡ column_directives db.now column) }
{
    let given = numbers(db, column);
    match column {
        Column::Verbs => routines(alloc, &columns::VERB_NAMES, &given, &columns::ROUTINES),
        Column::Nouns => routines(alloc, &columns::NOUN_NAMES, &given, &columns::ROUTINES),
    }
}

// The routines of a line.
fn line_directives(alloc: Global) -> Result<Vec<Directive>, Memory>
    ensures { IfOk result (λ directives. map directive_of directives.items ≡ line_directives) }
{
    routines(alloc, &lines::NAMES, &[], &lines::ROUTINES)
}

/// The routines of the word reader, which is called as `hear()`.
///
/// They meet their specifications in a program that has the tables of the database too.
pub fn words(alloc: Global, db: &Db) -> Result<Vec<Directive>, Memory>
    ensures { IfOk result (λ directives. map directive_of directives.items
        ≡ word_directives db.now) }
{
    let of_lines = line_directives(alloc)?;
    let of_verbs = column_directives(alloc, db, Column::Verbs)?;
    let of_nouns = column_directives(alloc, db, Column::Nouns)?;
    let of_columns = joined(of_verbs, of_nouns)?;
    joined(of_lines, of_columns)
}
