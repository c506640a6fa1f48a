//! Numbers and strings as most of them stand in a file: after one byte of whitespace, short and
//! plain.
//!
//! They are read on a fast path. Where there is none here the scan reads on byte by byte, so
//! nothing but the time that reading takes hangs on how often one is found here.
ghost use Rattle.std.specs.Prelude.{◌≡◌, ◌+◌, ◌≤◌, ◌<◌, ℕ, Bool, true, Ok, IfSome, length, drop, slice_index_or};
ghost use Rattle.std.specs.Char.{is_ascii_digit};
ghost use Rattle.adv_text.specs.Spelling.{signed};
ghost use Rattle.adv_text.specs.Reading.{input, amount_at, number_at, quoted_at};

use crate::quoted::plain_length;
use adv_io::is_whitespace;

/// The amount of the digits that begin these bytes, where there are at most six of them, and how
/// many there are. There is none where no digit stands first, or where fewer than seven bytes are
/// there.
///
/// No digit is asked whether it is the last byte, or whether it makes a number too big.
#[inline(always)]
pub fn short_amount(bytes: &[u8]) -> Option<(u32, usize)>
    ensures read { IfSome result (λ x. (negative : Bool) (start at : ℕ)
        → amount_at negative start at bytes.now ≡ Ok (
          signed negative x.0,
          input (at + x.1)
              (drop x.1 bytes.now),
        )) }
    ensures digit { IfSome result (λ _. is_ascii_digit (slice_index_or bytes.now 0 0) ≡ true) }
    ensures small { IfSome result (λ x. x.0 < 1000000) }
    ensures within { IfSome result (λ x. x.1 ≤ length bytes.now) }
{
    if bytes.len() < 7 || !bytes[0].is_ascii_digit() {
        return None;
    }
    let mut amount = u32::from(bytes[0] - b'0');
    for digits in 1..7 {
        let byte = bytes[digits];
        if !byte.is_ascii_digit() {
            return Some((amount, digits));
        }
        amount = amount * 10 + u32::from(byte - b'0');
    }
    None
}

/// The number without a sign that stands after one byte of whitespace at the beginning of these
/// bytes, where it is as short, and how many bytes it takes with its space. There is none where it
/// doesn't stand so.
#[inline(always)]
pub fn short_number(bytes: &[u8]) -> Option<(i32, usize)>
    ensures value { IfSome result (λ x. (at : ℕ)
        → number_at (input at bytes.now) ≡ Ok (x.0, input (at + x.1) (drop x.1 bytes.now))) }
    ensures within { IfSome result (λ x. x.1 ≤ length bytes.now) }
{
    let [space, digits @ ..] = bytes else {
        return None;
    };
    if !is_whitespace(*space) {
        return None;
    }
    let (amount, size) = short_amount(digits)?;
    Some((amount as i32, size + 1))
}

/// The text of the string that stands after one byte of whitespace at the beginning of these bytes,
/// where it is all kept as it is. It takes three bytes more, its space and its quotes. There is
/// none where it doesn't stand so.
#[inline(always)]
pub fn plain_string(bytes: &[u8]) -> Option<&[u8]>
    ensures value { IfSome result (λ text. (at : ℕ) → quoted_at (input at bytes.now)
        ≡ Ok (
          text.now,
          input (at + (length text.now + 3)) (drop (length text.now + 3) bytes.now),
        )) }
    ensures within { IfSome result (λ text. length text.now + 3 ≤ length bytes.now) }
{
    if bytes.len() < 2 || !is_whitespace(bytes[0]) || bytes[1] != b'"' {
        return None;
    }
    let inside = &bytes[2..];
    let size = plain_length(inside);
    if inside.len() < size + 2 || inside[size] != b'"' || inside[size + 1] == b'"' || size > 4096 {
        return None;
    }
    Some(&inside[..size])
}
