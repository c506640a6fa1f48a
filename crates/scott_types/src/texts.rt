//! A text of a database, or of its source.
ghost use Rattle.std.specs.Prelude.{◌≡◌};

use std::marker::Model;

/// A byte string: a text of a database, or a text, a word or a name of its source.
///
/// A clause sees the list of its bytes.
#[derive(Drop)]
pub struct Text {
    kept: Vec<u8>,
}

impl Model for Text {
    ghost use Rattle.std.specs.Prelude.{List, ℕ};

    ghost Value = { List ℕ };

    ghost view = { λ t. t.kept.items };
}

impl Text {
    /// The text of these bytes.
    pub fn of(bytes: Vec<u8>) -> Text
        ensures { result ≡ bytes.items }
    {
        Text { kept: bytes }
    }

    /// The bytes of the text.
    pub fn bytes(&self) -> &[u8]
        ensures { result.now ≡ self.now }
    {
        self.kept.as_slice()
    }
}
