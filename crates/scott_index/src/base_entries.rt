//! The index of the base entries that the words of a column name.
ghost use Rattle.std.specs.Prelude.{◌≡◌, List, ℕ, None, IfOk, OnOk, if◌then◌else◌};
ghost use Rattle.std.specs.Option.{option_or};
ghost use Rattle.scott_rules.specs.Words.{is_typed};
ghost use Rattle.scott_index.specs.WordIndex.{found_in};
ghost use Rattle.scott_index.specs.BaseEntries.{FindsWords};

use crate::indexes::WordIndex;
use adv_io::Memory;
use scott_types::{Column, Db};
use scott_vocab::{Entry, entry_at};
use std::alloc::Global;

// Adds the word of an entry, where the entry has a base entry.
fn add_entry(index: &mut WordIndex, alloc: Global, entry: &Entry) -> Result<(), Memory>
    ensures size { OnOk result (index.new.size ≡ index.old.size) }
    ensures found { OnOk result ((typed : List ℕ) → found_in index.new typed
        ≡ option_or (found_in index.old typed)
        (if is_typed index.old.size entry.now.word.now typed then entry.now.base else None)) }
{
    match entry.base {
        Some(base) => index.add(alloc, entry.word, base),
        None => Ok(()),
    }
}

impl WordIndex {
    /// The index of the base entries that the words of a column name. Its entries are read once,
    /// from entry 1 on, and the first of a word counts.
    pub fn of(alloc: Global, db: &Db, column: Column) -> Result<WordIndex, Memory>
        ensures { IfOk result (FindsWords db.now column) }
    {
        let size = db.parts().header.length as usize;
        let mut index = WordIndex::empty(alloc, size, db.words().len())?;
        let mut nearest = None;
        for k in 1..db.words().len() {
            let entry = entry_at(db, column, k, nearest);
            nearest = entry.base;
            add_entry(&mut index, alloc, &entry)?;
        }
        Ok(index)
    }
}
