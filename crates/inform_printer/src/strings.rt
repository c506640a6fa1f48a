//! How a text is written between its quotes.
ghost use Rattle.std.specs.Prelude.{◌≡◌, ◌++◌, ◌∷◌, ℕ, false, List, OnOk, IfOk};
ghost use Rattle.inform_lexer.specs.Written.{is_shown, escape_text, string_text};

use crate::writing::put_decimal;
use adv_io::Memory;
use inform_tree::is_character;

// Whether a byte stands for itself: a digit directly after an escape would belong to it.
fn is_shown(escaped: bool, byte: u8) -> bool
    ensures { result ≡ is_shown escaped byte }
{
    let is_itself = is_character(byte) || byte == b'\'';
    is_itself && !(escaped && byte.is_ascii_digit())
}

// Writes the escape that is this byte.
fn put_escape(out: &mut Vec<u8>, byte: u8) -> Result<(), Memory>
    ensures { OnOk result (out.new.items ≡ out.old.items ++ escape_text byte) }
{
    out.extend_from_slice(b"@@")?;
    put_decimal(out, byte)
}

// Writes what stands for a byte, after an escape or not, and answers whether that is an escape.
#[tactic(auto, unfolding(inform_lexer::specs::Written::string_text))]
fn put_byte(out: &mut Vec<u8>, escaped: bool, byte: u8) -> Result<bool, Memory>
    ensures { IfOk result (λ next. (text : List ℕ)
        → out.new.items ++ string_text next text
        ≡ out.old.items ++ string_text escaped (byte ∷ text)) }
{
    if byte == b'\n' {
        out.push(b'^')?;
        return Ok(false);
    }
    if byte == b'"' {
        out.push(b'~')?;
        return Ok(false);
    }
    if is_shown(escaped, byte) {
        out.push(byte)?;
        return Ok(false);
    }
    put_escape(out, byte)?;
    Ok(true)
}

/// Writes the bytes of a text as they stand between quotes.
#[tactic(auto, unfolding(inform_lexer::specs::Written::string_text))]
pub fn put_inside(out: &mut Vec<u8>, text: &[u8]) -> Result<(), Memory>
    ensures { OnOk result (out.new.items ≡ out.old.items ++ string_text false text.now) }
{
    let mut escaped = false;
    for byte in text {
        escaped = put_byte(out, escaped, *byte)?;
    }
    Ok(())
}
