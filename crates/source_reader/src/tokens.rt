//! The tokens of a source.
ghost use Rattle.std.specs.Prelude.{◌≡◌, ◌≤◌, IfOk, length};

use arrayvec::ArrayVec;
use scott_types::Text;
use std::alloc::{AllocError, Global};
use std::marker::Model;

/// The most bytes of a word.
pub const WORD_LIMIT: usize = 32;

/// A word as it stands in a text, which takes no memory.
///
/// A clause sees the list of its bytes.
#[derive(Drop)]
pub struct Word {
    kept: ArrayVec<u8, 32>,
}

impl Model for Word {
    ghost use Rattle.std.specs.Prelude.{List, ℕ};

    ghost Value = { List ℕ };

    ghost view = { λ w. w.kept.items };
}

impl Word {
    /// The word of these bytes, which are at most `WORD_LIMIT`.
    pub fn of(bytes: &[u8]) -> Word
        requires { length bytes.now ≤ WORD_LIMIT }
        ensures { result ≡ bytes.now }
    {
        let mut kept = ArrayVec::new();
        let _ = kept.try_extend_from_slice(bytes);
        Word { kept }
    }

    /// The bytes of the word.
    pub fn as_slice(&self) -> &[u8]
        ensures { result.now ≡ self.now }
    {
        self.kept.as_slice()
    }

    /// The word as a byte string.
    pub fn into_bytes(self, alloc: Global) -> Result<Text, AllocError>
        ensures { IfOk result (λ bytes. bytes ≡ self) }
    {
        Ok(Text::of(Vec::from_slice(alloc, self.as_slice())?))
    }
}

/// A token.
#[derive(Drop)]
pub enum Token {
    Number(i32),
    /// A string between quotes.
    Quoted(Text),
    /// A name or a word of the language.
    Word(Word),
    /// Any other byte.
    Mark(u8),
    /// The end of the text.
    End,
}
