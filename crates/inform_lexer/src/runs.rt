//! How many bytes of a kind stand first.
ghost use Rattle.std.specs.Prelude.{◌≡◌, ◌≤◌, length};
ghost use Rattle.std.specs.List.{prefix_len};
ghost use Rattle.inform_lexer.specs.Bytes.{is_comment_byte, is_inside};
ghost use Rattle.inform_lexer.specs.Views.{in_run};

use crate::bytes::{is_blank, is_break, is_word_byte};
use crate::numbers::is_digit_in;

/// Bytes that go on as long as they can.
#[derive(Clone, Copy)]
pub enum Run {
    /// Blanks.
    Blanks,
    /// A comment, up to a break.
    Comment,
    /// Letters, digits and underscores.
    Word,
    /// The inside of a string, up to a quote.
    Inside,
    /// Digits of this base.
    Digits(u64),
}

impl Run {
    // Whether it goes on with a byte.
    #[inline(always)]
    fn has(self, byte: u8) -> bool
        ensures { result ≡ in_run self byte }
    {
        match self {
            Run::Blanks => is_blank(byte),
            Run::Comment => !is_break(byte),
            Run::Word => is_word_byte(byte),
            Run::Inside => byte != b'"',
            Run::Digits(base) => is_digit_in(base, byte),
        }
    }

    /// How many of these bytes it has, from the first one on.
    #[inline(always)]
    pub fn size(self, bytes: &[u8]) -> usize
        ensures value { result ≡ prefix_len (in_run self) bytes.now }
        ensures within { result ≤ length bytes.now }
    {
        let mut size = 0;
        for byte in bytes {
            if !self.has(*byte) {
                return size;
            }
            size += 1;
        }
        size
    }
}

/// How many bytes stand before the first break. Four bytes at a time are passed as long as none is
/// a control byte up to the return.
pub fn comment_size(bytes: &[u8]) -> usize
    ensures value { result ≡ prefix_len is_comment_byte bytes.now }
    ensures within { result ≤ length bytes.now }
{
    let mut size = 0;
    let mut rest = bytes;
    while let [a, b, c, d, more @ ..] = rest {
        if *a <= 13 || *b <= 13 || *c <= 13 || *d <= 13 {
            break;
        }
        size += 4;
        rest = more;
    }
    size + Run::Comment.size(rest)
}

/// How many bytes stand before the first quote. Four bytes at a time are passed as long as none is
/// one.
#[inline(always)]
pub fn inside_size(bytes: &[u8]) -> usize
    ensures value { result ≡ prefix_len is_inside bytes.now }
    ensures within { result ≤ length bytes.now }
{
    let mut size = 0;
    let mut rest = bytes;
    while let [a, b, c, d, more @ ..] = rest {
        if *a == b'"' || *b == b'"' || *c == b'"' || *d == b'"' {
            break;
        }
        size += 4;
        rest = more;
    }
    size + Run::Inside.size(rest)
}
