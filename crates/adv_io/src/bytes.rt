//! What a single byte is to a reader.
ghost use Rattle.std.specs.Prelude.{◌≡◌};
ghost use Rattle.adv_io.specs.Text.{is_whitespace};

/// Whether a byte is whitespace: a tab, a line feed, a vertical tab, a form feed, a return or a
/// space.
pub fn is_whitespace(byte: u8) -> bool
    ensures { result ≡ is_whitespace byte }
{
    matches!(byte, 9..=13 | b' ')
}
