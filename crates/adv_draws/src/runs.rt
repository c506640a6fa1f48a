//! The runs of a text that lists draws.
ghost use Rattle.std.specs.Prelude.{◌≡◌, length, Some, None, IfSome, IfNone, IsTrue};
ghost use Rattle.adv_draws.specs.Run.{is_draw, draw_of, first_run};

use adv_io::is_whitespace;

/// The draw of the run that `text` begins with and the run's length, or none where that run is no
/// draw.
#[inline(always)]
pub fn first_draw(text: &[u8]) -> Option<(u8, usize)>
    ensures value { IfSome result (λ read. draw_of (first_run text.now) ≡ Some read.0) }
    ensures range { IfSome result (λ read. IsTrue (is_draw read.0)) }
    ensures size { IfSome result (λ read. length (first_run text.now) ≡ read.1) }
    ensures refused { IfNone result (draw_of (first_run text.now) ≡ None) }
{
    match short_draw(text) {
        Some(read) => Some(read),
        None => any_draw(text),
    }
}

/// The same where the run is a number of 1..99 without needless zeros, and a byte of whitespace
/// stands after it. Most draws stand so; where there is none here, `any_draw` reads byte by byte.
#[inline(always)]
fn short_draw(text: &[u8]) -> Option<(u8, usize)>
    ensures value { IfSome result (λ read. draw_of (first_run text.now) ≡ Some read.0) }
    ensures range { IfSome result (λ read. IsTrue (is_draw read.0)) }
    ensures size { IfSome result (λ read. length (first_run text.now) ≡ read.1) }
{
    if text.len() < 3 || text[0] < b'1' || b'9' < text[0] {
        return None;
    }
    let tens = text[0] - b'0';
    if is_whitespace(text[1]) {
        return Some((tens, 1));
    }
    if text[1] < b'0' || b'9' < text[1] || !is_whitespace(text[2]) {
        return None;
    }
    Some((tens * 10 + (text[1] - b'0'), 2))
}

/// The same for every run.
fn any_draw(text: &[u8]) -> Option<(u8, usize)>
    ensures value { IfSome result (λ read. draw_of (first_run text.now) ≡ Some read.0) }
    ensures range { IfSome result (λ read. IsTrue (is_draw read.0)) }
    ensures size { IfSome result (λ read. length (first_run text.now) ≡ read.1) }
    ensures refused { IfNone result (draw_of (first_run text.now) ≡ None) }
{
    let mut number: u16 = 0;
    let mut size = 0;
    for byte in text {
        if is_whitespace(*byte) {
            break;
        }
        if !byte.is_ascii_digit() || number > 100 {
            return None;
        }
        number = number * 10 + u16::from(*byte - b'0');
        size += 1;
    }
    match number {
        1..=100 => Some((number as u8, size)),
        _ => None,
    }
}
