//! A piece of the inside of a string.
ghost use Rattle.std.specs.Prelude.{◌≡◌, ◌+◌, ◌∷◌, ◌≤◌, length, take, IfOk, IfErr};
ghost use Rattle.std.specs.List.{list_any};
ghost use Rattle.inform_lexer.specs.Bytes.{is_break};
ghost use Rattle.inform_lexer.specs.Strings.{is_lone_space, run_here, escape_here, string_step};
ghost use Rattle.inform_lexer.specs.Views.{string_view};

use crate::bytes::{is_blank, is_break, is_plain};
use crate::numbers::number_in;
use crate::runs::Run;

/// A piece of the inside of a string.
#[derive(Clone, Copy)]
pub struct StringPiece {
    /// The byte that it says.
    pub byte: u8,
    /// How often it says it.
    pub count: usize,
    /// How many bytes it has after its first one.
    pub more: usize,
    /// Whether it is a caret.
    pub caret: bool,
}

impl StringPiece {
    // One byte that is said once.
    #[inline(always)]
    fn single(byte: u8, caret: bool) -> StringPiece
        ensures { result ≡ record { byte = byte; count = 1; more = 0; caret = caret } }
    {
        StringPiece {
            byte,
            count: 1,
            more: 0,
            caret,
        }
    }
}

fn any_break(bytes: &[u8]) -> bool
    ensures { result ≡ list_any is_break bytes.now }
{
    bytes.iter().any(|byte| is_break(*byte))
}

// Whether a byte is a space, and no blank stands behind it.
#[inline(always)]
fn is_lone_space(first: u8, rest: &[u8]) -> bool
    ensures { result ≡ is_lone_space first rest.now }
{
    match rest {
        [second, ..] => first == b' ' && !is_blank(*second),
        [] => first == b' ',
    }
}

// The run of blanks that begins with this one.
fn run_here(caret: bool, first: u8, rest: &[u8]) -> StringPiece
    ensures value { string_view (Ok result) ≡ run_here caret first rest.now }
    ensures within { result.more ≤ length rest.now }
{
    let more = Run::Blanks.size(rest);
    let broken = is_break(first) || any_break(&rest[..more]);
    let count = match (broken, caret) {
        (true, true) => 0,
        (true, false) => 1,
        (false, _) => more + 1,
    };
    StringPiece {
        byte: b' ',
        count,
        more,
        caret: false,
    }
}

// The escape whose first `@` stands at this place.
fn escape_here(at: usize, rest: &[u8]) -> Result<StringPiece, usize>
    ensures value { string_view result ≡ escape_here at rest.now }
    ensures within { IfOk result (λ piece. piece.more ≤ length rest.now) }
    ensures place { IfErr result (λ place. place ≡ at) }
{
    let [b'@', digits @ ..] = rest else {
        return Err(at);
    };
    let size = Run::Digits(10).size(digits);
    match number_in(10, &digits[..size]) {
        Some(value) if 1 <= size && value <= 255 => Ok(StringPiece {
            byte: value as u8,
            count: 1,
            more: 1 + size,
            caret: false,
        }),
        _ => Err(at),
    }
}

/// The first piece, where this place is that of its first byte, or the place where it can't stand
/// there.
#[tactic(auto, using(crate::proofs::QuickSteps::letter_step, crate::proofs::QuickSteps::lone_step), unfolding(crate::specs::Strings::string_step))]
#[inline(always)]
pub fn string_piece(caret: bool, at: usize, inside: &[u8]) -> Result<StringPiece, usize>
    ensures value { string_view result ≡ string_step caret at inside.now }
    ensures within { IfOk result (λ piece. 1 + piece.more ≤ length inside.now) }
    ensures place { IfErr result (λ place. place ≡ at) }
{
    let [first, rest @ ..] = inside else {
        return Err(at);
    };
    if first.is_ascii_alphabetic() || is_lone_space(*first, rest) {
        return Ok(StringPiece::single(*first, false));
    }
    if is_blank(*first) {
        return Ok(run_here(caret, *first, rest));
    }
    match *first {
        b'^' => Ok(StringPiece::single(b'\n', true)),
        b'~' => Ok(StringPiece::single(b'"', false)),
        b'@' => escape_here(at, rest),
        byte if is_plain(byte) => Ok(StringPiece::single(byte, false)),
        _ => Err(at),
    }
}
