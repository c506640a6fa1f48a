//! What a single byte is to a scan.
ghost use Rattle.std.specs.Prelude.{◌≡◌};
ghost use Rattle.adv_text.specs.Spelling.{is_plain};

/// Whether a byte of a string is kept as it is.
pub fn is_plain(byte: u8) -> bool
    ensures { result ≡ is_plain byte }
{
    !matches!(byte, b'"' | b'\r' | b'`')
}
