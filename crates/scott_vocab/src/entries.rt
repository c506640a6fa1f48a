//! The entries of the vocabulary: the word of each, and the base entry that it stands for.
ghost use Rattle.std.specs.Prelude.{◌≡◌, ◌+◌, ◌<◌, ◌&&◌, List, ℕ, length, is_some, IfSome, if◌then◌else◌};
ghost use Rattle.scott_types.specs.ItemText.{is_starred};
ghost use Rattle.scott_rules.specs.Words.{column_of, is_typed, spelling};
ghost use Rattle.scott_vocab.specs.Found.{which_from};

use scott_types::{Column, Db, Word, starts_with_star};

/// An entry of the vocabulary: its word, without the mark of a synonym, and the base entry that it
/// stands for.
///
/// A base entry stands for itself, and a synonym for the nearest base entry before it, if there is
/// one.
#[derive(Clone, Copy)]
pub struct Entry<'a> {
    pub word: &'a [u8],
    pub base: Option<u16>,
}

/// The entry of a column at a place from 1 on, where `before` is the nearest base entry before it.
///
/// A word names the base entry that this one stands for, if it matches it, or what it names after
/// it.
pub fn entry_at<'a>(db: &'a Db, column: Column, k: usize, before: Option<u16>) -> Entry<'a>
    requires there { k < length db.now.words }
    requires before { IfSome before (λ base. base < k) }
    ensures names { (word : List ℕ) → which_from db.now column word before k
        ≡ (if is_typed db.now.header.length result.word.now word && is_some result.base
        then result.base else which_from db.now column word result.base (k + 1)) }
    ensures base { IfSome result.base (λ base. base < k + 1) }
{
    let text = entry_text(&db.words()[k], column);
    Entry {
        word: spelling(text),
        base: base_at(before, text, k as u16),
    }
}

/// The text of an entry in a column.
pub fn entry_text(word: &Word, column: Column) -> &[u8]
    ensures { result.now ≡ column_of column word.now }
{
    match column {
        Column::Verbs => word.verb.bytes(),
        Column::Nouns => word.noun.bytes(),
    }
}

/// The word of an entry: its text without the mark of a synonym.
pub fn spelling(entry: &[u8]) -> &[u8]
    ensures { result.now ≡ spelling entry.now }
{
    if starts_with_star(entry) {
        &entry[1..]
    } else {
        entry
    }
}

// The nearest base entry at or before entry k, where `before` is the nearest one before it.
fn base_at(before: Option<u16>, entry: &[u8], k: u16) -> Option<u16>
    requires { IfSome before (λ base. base < k) }
    ensures value { result ≡ (if is_starred entry.now then before else Some k) }
    ensures there { IfSome result (λ base. base < k + 1) }
{
    if starts_with_star(entry) {
        before
    } else {
        Some(k)
    }
}
