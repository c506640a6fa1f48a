//! What finds the base entries that words name.
ghost use Rattle.std.specs.Prelude.{◌≡◌};
ghost use Rattle.scott_types.specs.Database.{Database};
ghost use Rattle.scott_rules.specs.Words.{which};

use crate::vocabulary::which;
use scott_types::{Column, Db};

/// What finds the base entries that words name, in the vocabulary of a database.
///
/// A database walks over its entries. An index finds the same by one look-up.
pub trait Vocabulary {
    ghost db: { Self → Database };

    /// The number of the base entry that a word names, as `which` finds it.
    fn named(&self, column: Column, word: &[u8]) -> Option<u16>
        ensures { result ≡ which (db self.now) column word.now };
}

impl Vocabulary for Db {
    ghost db = { λ db. db };

    fn named(&self, column: Column, word: &[u8]) -> Option<u16> {
        which(self, column, word)
    }
}
