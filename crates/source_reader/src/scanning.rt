//! Reading one token.
ghost use Rattle.std.specs.Prelude.{◌≡◌, ◌≤◌, false, length};
ghost use Rattle.source_reader.specs.Faults.{Reads};
ghost use Rattle.source_reader.specs.Tokens.{gap, past_gap, is_word_byte, word_size, begins_number, number_token, quoted_token, word_token, token_at};
ghost use Rattle.adv_text.specs.Reading.{number_at, quoted_at};

use crate::faults::SourceFault;
use crate::tokens::{Token, WORD_LIMIT, Word};
use adv_io::is_whitespace;
use adv_text::{Scan, TextFault};
use scott_types::Text;
use std::alloc::Global;

// How many bytes of whitespace and comments stand first.
fn gap(bytes: &[u8]) -> usize
    ensures value { result ≡ gap false bytes.now }
    ensures within { result ≤ length bytes.now }
{
    let mut commented = false;
    let mut size = 0;
    for byte in bytes {
        if commented {
            commented = !matches!(byte, b'\n' | b'\r');
        } else if *byte == b'#' {
            commented = true;
        } else if !is_whitespace(*byte) {
            return size;
        }
        size += 1;
    }
    size
}

// How many letters, digits and underscores stand first.
fn word_size(bytes: &[u8]) -> usize
    ensures value { result ≡ word_size bytes.now }
    ensures within { result ≤ length bytes.now }
{
    bytes
        .iter()
        .take_while(|byte| byte.is_ascii_alphanumeric() || **byte == b'_')
        .count()
}

// Whether a number begins with this byte, before these.
fn begins_number(byte: u8, more: &[u8]) -> bool
    ensures { result ≡ begins_number byte more.now }
{
    match more {
        _ if byte.is_ascii_digit() => true,
        [next, ..] => matches!(byte, b'+' | b'-') && next.is_ascii_digit(),
        [] => false,
    }
}

// The number that begins at the scan.
fn number(scan: &mut Scan) -> Result<Token, SourceFault>
    ensures { Reads (number_token scan.old.at (number_at scan.old)) result scan.new }
{
    let at = scan.at();
    match scan.number() {
        Ok(number) => Ok(Token::Number(number)),
        Err(_) => Err(SourceFault::BigNumber(at)),
    }
}

// The string that begins at the scan.
fn quoted(alloc: Global, scan: &mut Scan) -> Result<Token, SourceFault>
    ensures { Reads (quoted_token scan.old.at (quoted_at scan.old)) result scan.new }
{
    let at = scan.at();
    match scan.quoted(alloc) {
        Ok(text) => Ok(Token::Quoted(Text::of(text))),
        Err(TextFault::LongString(_)) => Err(SourceFault::LongString(at)),
        Err(TextFault::Memory) => Err(SourceFault::Memory),
        Err(_) => Err(SourceFault::OpenString(at)),
    }
}

// The word that begins at the scan.
fn word(scan: &mut Scan) -> Result<Token, SourceFault>
    ensures { Reads (word_token (word_size scan.old.rest) scan.old) result scan.new }
{
    let rest = scan.rest();
    let size = word_size(rest);
    if size > WORD_LIMIT {
        return Err(SourceFault::LongName(scan.at()));
    }
    let word = Word::of(&rest[..size]);
    scan.pass(size);
    Ok(Token::Word(word))
}

/// The token that begins at the scan, with nothing before it.
#[tactic(auto, unfolding(crate::specs::Tokens::token_at))]
pub fn token(alloc: Global, scan: &mut Scan) -> Result<Token, SourceFault>
    ensures { Reads (token_at scan.old) result scan.new }
{
    let [byte, more @ ..] = scan.rest() else {
        return Ok(Token::End);
    };
    if begins_number(*byte, more) {
        return number(scan);
    }
    if *byte == b'"' {
        return quoted(alloc, scan);
    }
    if byte.is_ascii_alphabetic() {
        return word(scan);
    }
    let mark = *byte;
    scan.pass(1);
    Ok(Token::Mark(mark))
}

/// Passes over the whitespace and the comments that stand at the scan.
pub fn pass_gap(scan: &mut Scan)
    ensures { scan.new ≡ past_gap scan.old }
{
    let size = gap(scan.rest());
    scan.pass(size);
}
