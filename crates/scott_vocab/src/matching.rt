//! Whether a word of the database is the one that was typed.
ghost use Rattle.std.specs.Prelude.{◌≡◌, ◌≤◌, List, ℕ, take, bytes_eq, length};
ghost use Rattle.std.specs.Str.{str_to_ascii_lowercase};
ghost use Rattle.scott_rules.specs.Words.{is_typed};
ghost use Rattle.scott_vocab.specs.Keys.{letters, IsKeyOf};

use arrayvec::ArrayVec;
use std::marker::Model;

/// A typed word as far as it counts: its first bytes, as many as the word length, in lower case.
///
/// A clause sees how many bytes count, and those of the word.
#[derive(Drop)]
pub struct Key {
    size: usize,
    lower: ArrayVec<u8, 20>,
}

impl Model for Key {
    ghost use Rattle.scott_vocab.specs.Keys.{Key};

    ghost Value = { Key };

    ghost view = { λ k. record { size = k.size; lower = k.lower.items } };
}

impl Key {
    /// The key of a typed word, at a word length of at most 20.
    pub fn of(size: usize, typed: &[u8]) -> Key
        requires { size ≤ 20 }
        ensures size { result.size ≡ size }
        ensures key { IsKeyOf result typed.now }
    {
        Key {
            size,
            lower: letters(size, typed),
        }
    }

    /// Whether a word of the database matches a typed word of this key: their first bytes, as many
    /// as count, are the same, capitals aside, and a shorter word counts whole. An empty word of
    /// the database matches nothing. docs/TURN.md, "Words", states the rule.
    pub fn matches(&self, word: &[u8]) -> bool
        ensures { (typed : List ℕ) → IsKeyOf self.now typed
            → result ≡ is_typed self.now.size word.now typed }
    {
        !word.is_empty() && is_spelled(prefix(word, self.size), self.lower.as_slice())
    }
}

/// The letters of a word: its first bytes, as many as the word length, in lower case.
///
/// A word of the database that isn't empty matches a typed word exactly where their letters are the
/// same.
pub fn letters(size: usize, word: &[u8]) -> ArrayVec<u8, 20>
    requires { size ≤ 20 }
    ensures { result.items ≡ letters size word.now }
{
    lower_case(prefix(word, size))
}

/// Whether a word of the database matches the typed one, at a word length of at most 20.
///
/// The words of items match as those of the vocabulary do. docs/TURN.md, "Words", states the rule.
pub fn is_typed(size: usize, word: &[u8], typed: &[u8]) -> bool
    requires { size ≤ 20 }
    ensures { result ≡ is_typed size word.now typed.now }
{
    Key::of(size, typed).matches(word)
}

// The bytes of a word that count.
fn prefix(word: &[u8], size: usize) -> &[u8]
    ensures value { result.now ≡ take size word.now }
    ensures short { length result.now ≤ size }
{
    &word[..size.min(word.len())]
}

// The bytes in lower case.
fn lower_case(bytes: &[u8]) -> ArrayVec<u8, 20>
    requires { length bytes.now ≤ 20 }
    ensures { result.items ≡ str_to_ascii_lowercase bytes.now }
{
    let mut lower = ArrayVec::new();
    for byte in bytes {
        lower.push(byte.to_ascii_lowercase());
    }
    lower
}

// Whether a word is spelled so, in lower case.
fn is_spelled(word: &[u8], lower: &[u8]) -> bool
    ensures { result ≡ bytes_eq (str_to_ascii_lowercase word.now) lower.now }
{
    if word.len() != lower.len() {
        return false;
    }
    for i in 0..word.len() {
        if word[i].to_ascii_lowercase() != lower[i] {
            return false;
        }
    }
    true
}
