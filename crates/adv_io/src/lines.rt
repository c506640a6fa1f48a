//! A typed line, as the machine sees it.
ghost use Rattle.std.specs.Prelude.{◌≡◌, map, take};
ghost use Rattle.adv_io.specs.TypedLine.{IsTyped, line_byte};

use arrayvec::ArrayVec;
use std::marker::Model;

/// The most bytes that are kept of a typed line.
pub const LINE_LIMIT: usize = 120;

/// A typed line: at most 120 printable ASCII bytes, none of them a capital letter.
///
/// A clause sees the list of its bytes. docs/TURN.md says what becomes of other bytes.
#[derive(Drop)]
pub struct Line {
    kept: ArrayVec<u8, 120>,
}

impl Model for Line {
    ghost use Rattle.std.specs.Prelude.{List, ℕ};
    ghost use Rattle.adv_io.specs.TypedLine.{IsTyped};

    ghost Value = { List ℕ };

    ghost view = { λ l. l.kept.items };

    ghost invariant = { λ l. IsTyped l.kept.items };
}

impl Line {
    /// The line that was typed as `raw`: its first 120 bytes, in lower case, with a space for each
    /// byte that is no printable ASCII.
    pub fn of(raw: &[u8]) -> Line
        ensures { result ≡ map line_byte (take 120 raw.now) }
    {
        let mut kept = ArrayVec::new();
        for byte in &raw[..LINE_LIMIT.min(raw.len())] {
            kept.push(typed_byte(*byte));
        }
        Line { kept }
    }

    /// The same line once more.
    pub fn copied(&self) -> Line
        ensures { result ≡ self.now }
    {
        Line::of(self.bytes())
    }

    /// The bytes of the line.
    pub fn bytes(&self) -> &[u8]
        ensures value { result.now ≡ self.now }
        ensures typed { IsTyped self.now }
    {
        self.kept.as_slice()
    }
}

// The byte of a line that stands for a typed one.
fn typed_byte(byte: u8) -> u8
    ensures { result ≡ line_byte byte }
{
    if byte.is_ascii_graphic() {
        byte.to_ascii_lowercase()
    } else {
        b' '
    }
}
