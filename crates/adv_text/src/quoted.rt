//! The inside of a quoted string, piece by piece.
ghost use Rattle.std.specs.Prelude.{◌≡◌, ◌+◌, List, ℕ, IfOk, IfErr, OnOk, ◌++◌, ◌∷◌, ◌<◌, ◌≤◌, ◌-◌, length, Ok, Err, true, false};
ghost use Rattle.std.specs.List.{prefix_len};
ghost use Rattle.adv_text.specs.Spelling.{is_plain};
ghost use Rattle.adv_text.specs.Reading.{inside_at, GoesOn, Stands, IsLong};

use crate::bytes::is_plain;
use crate::faults::TextFault;
use std::alloc::Global;

/// How many of the first bytes are kept as they are.
pub fn plain_length(bytes: &[u8]) -> usize
    ensures value { result ≡ prefix_len is_plain bytes.now }
    ensures within { result ≤ length bytes.now }
{
    bytes.iter().take_while(|byte| is_plain(**byte)).count()
}

// Keeps more bytes of the string that was opened at this place.
fn keep(_alloc: Global, text: &mut Vec<u8>, bytes: &[u8], opened: usize) -> Result<(), TextFault>
    requires { length text.old.items ≤ 4096 }
    ensures kept { OnOk result (text.new.items ≡ text.old.items ++ bytes.now) }
    ensures short { OnOk result (length text.old.items + length bytes.now ≤ 4096) }
    ensures long { IfErr result
        (λ fault. IsLong fault opened (length text.old.items + length bytes.now)) }
{
    if bytes.len() > 4096 - text.len() {
        return Err(TextFault::LongString(opened));
    }
    text.extend_from_slice(bytes)?;
    Ok(())
}

// After a quote that is held a second one is kept as one, and any other byte shows that the string
// has ended.
fn after_quote(
    alloc: Global,
    text: &mut Vec<u8>,
    byte: u8,
    opened: usize,
) -> Result<Option<(usize, bool)>, TextFault>
    requires { length text.old.items ≤ 4096 }
    ensures piece { IfOk result (λ piece. (rest : List ℕ)
        → GoesOn opened true text.old.items (byte ∷ rest) text.new.items piece) }
    ensures fault { IfErr result (λ fault. (at : ℕ) (rest : List ℕ)
        → Stands fault (inside_at opened true text.old.items at (byte ∷ rest))) }
    ensures short { OnOk result (length text.new.items ≤ 4096) }
{
    if byte != b'"' {
        return Ok(None);
    }
    keep(alloc, text, b"\"", opened)?;
    Ok(Some((1, false)))
}

// A byte that isn't kept as it is: a quote is held, a return is dropped, and a grave accent is kept
// as a quote.
fn special(
    alloc: Global,
    text: &mut Vec<u8>,
    byte: u8,
    opened: usize,
) -> Result<Option<(usize, bool)>, TextFault>
    requires short { length text.old.items ≤ 4096 }
    requires special { is_plain byte ≡ false }
    ensures piece { IfOk result (λ piece. (rest : List ℕ)
        → GoesOn opened false text.old.items (byte ∷ rest) text.new.items piece) }
    ensures fault { IfErr result (λ fault. (at : ℕ) (rest : List ℕ)
        → Stands fault (inside_at opened false text.old.items at (byte ∷ rest))) }
    ensures short { OnOk result (length text.new.items ≤ 4096) }
{
    if byte == b'"' {
        return Ok(Some((1, true)));
    }
    if byte == b'\r' {
        return Ok(Some((1, false)));
    }
    keep(alloc, text, b"\"", opened)?;
    Ok(Some((1, false)))
}

/// Reads the next piece of the string that was opened at this place: how many bytes it takes, and
/// whether a quote is held after it. There is none where the string ends, or the file.
pub fn next_piece(
    alloc: Global,
    text: &mut Vec<u8>,
    held: bool,
    rest: &[u8],
    opened: usize,
) -> Result<Option<(usize, bool)>, TextFault>
    requires { length text.old.items ≤ 4096 }
    ensures piece { IfOk result
        (λ piece. GoesOn opened held text.old.items rest.now text.new.items piece) }
    ensures fault { IfErr result (λ fault. (at : ℕ)
        → Stands fault (inside_at opened held text.old.items at rest.now)) }
    ensures short { OnOk result (length text.new.items ≤ 4096) }
{
    let [byte, ..] = rest else {
        return Ok(None);
    };
    if held {
        return after_quote(alloc, text, *byte, opened);
    }
    if is_plain(*byte) {
        let length = plain_length(rest);
        keep(alloc, text, &rest[..length], opened)?;
        return Ok(Some((length, false)));
    }
    special(alloc, text, *byte, opened)
}
