//! The entries of the vocabulary, found by a word or by their number.
ghost use Rattle.std.specs.Prelude.{◌≡◌, ◌<◌, ◌&&◌, List, ℕ, length, is_some};
ghost use Rattle.scott_rules.specs.Words.{is_typed, root, which};
ghost use Rattle.scott_vocab.specs.Heard.{IsEntry};
ghost use Rattle.scott_vocab.specs.Keys.{IsKeyOf};

use crate::entries::{Entry, entry_at, entry_text};
use crate::matching::Key;
use scott_types::{Column, Db};

/// The number of the base entry that a word names: that of the first entry from 1 on that matches
/// it. There is none exactly where no entry does.
///
/// docs/TURN.md, "Words", states the rule.
pub fn which(db: &Db, column: Column, word: &[u8]) -> Option<u16>
    ensures value { result ≡ which db.now column word.now }
    ensures there { IsEntry db.now result }
{
    let parts = db.parts();
    let key = Key::of(parts.header.length as usize, word);
    let mut nearest = None;
    for k in 1..parts.words.len() {
        let entry = entry_at(db, column, k, nearest);
        nearest = entry.base;
        if names_base(&entry, &key) {
            return nearest;
        }
    }
    None
}

/// The text of a noun's entry, with the mark of a synonym where it has one.
pub fn root(db: &Db, noun: u16) -> &[u8]
    requires { noun < length db.now.words }
    ensures { result.now ≡ root db.now noun }
{
    entry_text(&db.parts().words[noun as usize], Column::Nouns)
}

// Whether a word of this key matches an entry that has a base entry.
fn names_base(entry: &Entry, key: &Key) -> bool
    ensures { (word : List ℕ) → IsKeyOf key.now word
        → result ≡ (is_typed key.now.size entry.now.word.now word && is_some entry.now.base) }
{
    entry.base.is_some() && key.matches(entry.word)
}
