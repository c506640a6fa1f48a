//! An index of numbers by words.
ghost use Rattle.std.specs.Prelude.{◌≡◌, ◌≤◌, List, ℕ, Some, None, IfOk, OnOk, if◌then◌else◌};
ghost use Rattle.std.specs.Option.{option_or};
ghost use Rattle.scott_rules.specs.Words.{is_typed};
ghost use Rattle.scott_index.specs.WordIndex.{found_in};

use adv_io::Memory;
use arrayvec::ArrayVec;
use indexmap::IndexMap;
use scott_vocab::letters;
use std::alloc::Global;
use std::marker::Model;

/// An index of numbers by words: by the letters of each word, as many as count, in lower case, the
/// number that it names.
pub struct WordIndex {
    size: usize,
    numbers: IndexMap<ArrayVec<u8, 20>, u16>,
}

impl Drop for WordIndex {
    fn drop(self) {
        let WordIndex {
            size: _,
            numbers: _,
        } = self;
    }
}

impl Model for WordIndex {
    ghost use Rattle.std.specs.Prelude.{◌≤◌};
    ghost use Rattle.scott_index.specs.WordIndex.{WordIndex};

    ghost Value = { WordIndex };

    ghost view = { λ index. record { size = index.size; entries = index.numbers.entries } };

    ghost invariant = { λ index. index.size ≤ 20 };
}

impl WordIndex {
    /// An index of no word, of which so many letters count, with room for so many words.
    pub fn empty(alloc: Global, size: usize, room: usize) -> Result<WordIndex, Memory>
        requires { size ≤ 20 }
        ensures none { IfOk result (λ index. (word : List ℕ) → found_in index word ≡ None) }
        ensures size { IfOk result (λ index. index.size ≡ size) }
    {
        Ok(WordIndex {
            size,
            numbers: IndexMap::with_capacity(alloc, room)?,
        })
    }

    /// Adds a word with its number, where the word isn't there yet: its first number stays. An
    /// empty word names nothing.
    pub fn add(&mut self, _alloc: Global, word: &[u8], number: u16) -> Result<(), Memory>
        ensures size { OnOk result (self.new.size ≡ self.old.size) }
        ensures found { OnOk result ((typed : List ℕ) → found_in self.new typed
            ≡ option_or (found_in self.old typed)
            (if is_typed self.old.size word.now typed then Some number else None)) }
    {
        if word.is_empty() {
            return Ok(());
        }
        self.numbers
            .entry(letters(self.size, word))?
            .or_insert(number);
        Ok(())
    }

    /// The number that a word names, by one look-up.
    pub fn find(&self, word: &[u8]) -> Option<u16>
        ensures { result ≡ found_in self.now word.now }
    {
        self.numbers.get(&letters(self.size, word)).copied()
    }
}
