//! The nouns of a database, found by one look-up each: the class of a word, and what it names.
ghost use Rattle.std.specs.Prelude.{◌≡◌, ◌&&◌, List, ℕ, None, Some, IfOk, OnOk, if◌then◌else◌};
ghost use Rattle.std.specs.Option.{option_or};
ghost use Rattle.scott_rules.specs.Words.{is_typed, which};
ghost use Rattle.scott_types.specs.declared.commands.Column.TheVariants.{Nouns};
ghost use Rattle.scott_index.specs.WordIndex.{found_in};
ghost use Rattle.trans_specs.specs.Tables.{or_zero, is_class as the_test, class_of as the_class};
ghost use Rattle.trans_data.specs.Nouns.{FindsClasses};

use adv_io::Memory;
use scott_index::WordIndex;
use scott_types::{Column, Db, Word, starts_with_star};
use std::alloc::Global;
use std::marker::Model;

/// Whether a noun is a base entry with a text.
pub fn is_class(noun: &[u8]) -> bool
    ensures { result ≡ the_test noun.now }
{
    !starts_with_star(noun) && !noun.is_empty()
}

// Adds the noun of an entry with its number, where it is a class.
fn add_class(index: &mut WordIndex, alloc: Global, entry: &Word, number: u16) -> Result<(), Memory>
    ensures size { OnOk result (index.new.size ≡ index.old.size) }
    ensures found { OnOk result ((word : List ℕ) → found_in index.new word
        ≡ option_or (found_in index.old word)
        (if the_test entry.now.noun && is_typed index.old.size entry.now.noun word
        then Some number else None)) }
{
    let noun = entry.noun.bytes();
    if is_class(noun) {
        index.add(alloc, noun, number)
    } else {
        Ok(())
    }
}

// The index of the classes. The nouns are read once, from noun 1 on.
fn class_index(alloc: Global, db: &Db) -> Result<WordIndex, Memory>
    ensures { IfOk result (FindsClasses db.now) }
{
    let size = db.parts().header.length as usize;
    let mut index = WordIndex::empty(alloc, size, db.words().len())?;
    for k in 1..db.words().len() {
        add_class(&mut index, alloc, &db.words()[k], k as u16)?;
    }
    Ok(index)
}

/// A database with an index of its classes, and one of its nouns.
///
/// A clause sees the database alone: the indexes say nothing that its words don't say.
pub struct IndexedNouns<'a> {
    db: &'a Db,
    classes: WordIndex,
    nouns: WordIndex,
}

impl Drop for IndexedNouns<'_> {
    fn drop(self) {
        let IndexedNouns {
            db: _,
            classes: _,
            nouns: _,
        } = self;
    }
}

impl<'a> Model for IndexedNouns<'a> {
    ghost use Rattle.scott_types.specs.declared.commands.Column.TheVariants.{Nouns};
    ghost use Rattle.scott_types.specs.Database.{Database};
    ghost use Rattle.scott_index.specs.BaseEntries.{FindsWords};
    ghost use Rattle.trans_data.specs.Nouns.{FindsClasses};

    ghost Value = { Database };

    ghost view = { λ n. n.db.now };

    ghost invariant = { λ n. FindsClasses n.db.now n.classes × FindsWords n.db.now Nouns n.nouns };
}

impl<'a> IndexedNouns<'a> {
    /// The database with its indexes. Its nouns are read once for each.
    pub fn of(alloc: Global, db: &'a Db) -> Result<IndexedNouns<'a>, Memory>
        ensures { IfOk result (λ nouns. nouns ≡ db.now) }
    {
        Ok(IndexedNouns {
            db,
            classes: class_index(alloc, db)?,
            nouns: WordIndex::of(alloc, db, Column::Nouns)?,
        })
    }

    /// The database.
    pub fn db(&self) -> &'a Db
        ensures { result.now ≡ self.now }
    {
        self.db
    }

    /// The class of a word: the least noun from 1 on that matches it, or 0.
    pub fn class_of(&self, word: &[u8]) -> u32
        ensures { result ≡ the_class self.now word.now }
    {
        self.classes.find(word).unwrap_or(0) as u32
    }

    /// The noun that a word names, or 0.
    pub fn noun_of(&self, word: &[u8]) -> u32
        ensures { result ≡ or_zero (which self.now Nouns word.now) }
    {
        self.nouns.find(word).unwrap_or(0) as u32
    }
}
