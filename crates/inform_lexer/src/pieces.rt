//! The pieces of a text: blanks, comments and tokens.
ghost use Rattle.std.specs.Prelude.{◌≡◌, ◌+◌, ◌∷◌, ◌≤◌, ◌<◌, ◌^◌, length, take, IfOk, Option, Ok};
ghost use Rattle.inform_lexer.specs.Tokens.{word_here, number_token, decimal_here, based_here, dollar_here, character_here, string_here, symbol_token, symbol_first, token_step, InOrder};
ghost use Rattle.inform_lexer.specs.Strings.{inside_said};
ghost use Rattle.inform_lexer.specs.Views.{token_view, piece_at, Reads, refused_at};

use crate::bytes::{begins_word, is_blank};
use crate::faults::LexFault;
use crate::insides::refused;
use crate::kinds::{Kind, Token};
use crate::numbers::{is_digit_in, number_in};
use crate::runs::{Run, comment_size, inside_size};
use crate::signs::symbol_first;
use inform_tree::{NAME_LIMIT, is_character};

/// A piece of a text.
#[derive(Clone, Copy)]
pub struct Found {
    /// The token that it is, and none for blanks and a comment.
    pub kind: Option<Kind>,
    /// How many bytes it has after its first one.
    pub more: usize,
}

// A token with so many bytes after its first one.
#[inline(always)]
fn token(kind: Kind, more: usize) -> Found
    ensures { result ≡ record { kind = Some kind; more = more } }
{
    Found {
        kind: Some(kind),
        more,
    }
}

// Blanks or a comment.
#[inline(always)]
fn gap(more: usize) -> Found
    ensures { result ≡ record { kind = None; more = more } }
{
    Found { kind: None, more }
}

// The word that goes on with these bytes after its first one.
#[inline(always)]
fn word_here(at: usize, rest: &[u8]) -> Result<Found, LexFault>
    ensures value { token_view at result ≡ word_here at rest.now }
    ensures within { IfOk result (λ found. found.more ≤ length rest.now) }
{
    let more = Run::Word.size(rest);
    if more < NAME_LIMIT {
        Ok(token(Kind::Word, more))
    } else {
        Err(LexFault::LongName(at))
    }
}

// The token of a number, where it fits.
#[inline(always)]
fn number_token(at: usize, more: usize, number: Option<u32>) -> Result<Found, LexFault>
    ensures value { token_view at result ≡ number_token at more number }
    ensures within { IfOk result (λ found. found.more ≡ more) }
{
    match number {
        Some(_) => Ok(token(Kind::Number, more)),
        None => Err(LexFault::BigNumber(at)),
    }
}

// The decimal number that these bytes begin with, where a digit stands first.
#[inline(always)]
fn decimal_here(at: usize, bytes: &[u8]) -> Result<Found, LexFault>
    ensures value { token_view at result ≡ decimal_here at bytes.now }
    ensures within { IfOk result (λ found. 1 + found.more ≤ length bytes.now) }
{
    let [_, rest @ ..] = bytes else {
        return Err(LexFault::BadByte(at));
    };
    let more = Run::Digits(10).size(rest);
    number_token(at, more, number_in(10, &bytes[..more + 1]))
}

// The number of a base that has so many dollar signs before these bytes, after its first one.
fn based_here(at: usize, base: u64, signs: usize, bytes: &[u8]) -> Result<Found, LexFault>
    requires some { 0 < base }
    requires few { base ≤ 16 }
    requires one { signs ≤ 1 }
    ensures value { token_view at result ≡ based_here at base signs bytes.now }
    ensures within { IfOk result (λ found. found.more ≤ signs + length bytes.now) }
{
    let size = Run::Digits(base).size(bytes);
    if 1 <= size {
        number_token(at, signs + size, number_in(base, &bytes[..size]))
    } else {
        Err(LexFault::BadByte(at))
    }
}

// The number after a first dollar sign.
fn dollar_here(at: usize, rest: &[u8]) -> Result<Found, LexFault>
    ensures value { token_view at result ≡ dollar_here at rest.now }
    ensures within { IfOk result (λ found. found.more ≤ length rest.now) }
{
    match rest {
        [] => Err(LexFault::BadByte(at)),
        [b'$', digits @ ..] => based_here(at, 2, 1, digits),
        _ => based_here(at, 16, 0, rest),
    }
}

// The character after an apostrophe.
fn character_here(at: usize, rest: &[u8]) -> Result<Found, LexFault>
    ensures value { token_view at result ≡ character_here at rest.now }
    ensures within { IfOk result (λ found. found.more ≤ length rest.now) }
{
    match rest {
        [byte, b'\'', ..] if is_character(*byte) => Ok(token(Kind::Character, 2)),
        _ => Err(LexFault::BadCharacter(at)),
    }
}

// The string after a quote.
fn string_here(at: usize, rest: &[u8]) -> Result<Found, LexFault>
    requires { at + length rest.now < 2 ^ 63 }
    ensures value { token_view at result ≡ string_here at rest.now }
    ensures within { IfOk result (λ found. found.more ≤ length rest.now) }
{
    let size = inside_size(rest);
    if size >= rest.len() {
        return Err(LexFault::OpenString(at));
    }
    match refused(&rest[..size]) {
        None => Ok(token(Kind::Quoted, size + 1)),
        Some(place) => Err(LexFault::BadString(at + 1 + place)),
    }
}

// The symbol that these bytes begin with.
#[tactic(auto, using(crate::proofs::LongestSymbol::symbol_within))]
#[inline(always)]
fn symbol_here(at: usize, bytes: &[u8]) -> Result<Found, LexFault>
    ensures value { token_view at result ≡ symbol_token at (symbol_first bytes.now) }
    ensures within { IfOk result (λ found. 1 + found.more ≤ length bytes.now) }
{
    match symbol_first(bytes) {
        Some(symbol) => Ok(token(Kind::Symbol, symbol.spelling().len() - 1)),
        None => Err(LexFault::BadByte(at)),
    }
}

// Adds the token that a piece at this place is, if it is one. Gives how many bytes the piece has
// after its first one.
#[inline(always)]
fn keep(tokens: &mut Vec<Token>, at: usize, found: Found) -> Result<usize, LexFault>
    requires { at + 1 + found.more < 2 ^ 32 }
    ensures reads { Reads (Ok (piece_at at found)) tokens.old.items tokens.new.items result }
    ensures order { InOrder at 0 tokens.old.items
        → IfOk result (λ more. InOrder (at + 1 + more) 0 tokens.new.items) }
{
    if let Some(kind) = found.kind {
        tokens.push(Token {
            kind,
            start: at as u32,
            end: (at + 1 + found.more) as u32,
        })?;
    }
    Ok(found.more)
}

/// Adds the first piece, where this place is that of its first byte, if it is a token. Gives how
/// many bytes it has after its first one, or the fault of a token that begins there.
#[tactic(auto, unfolding(crate::specs::Tokens::token_step))]
#[inline(always)]
pub fn read_piece(tokens: &mut Vec<Token>, at: usize, bytes: &[u8]) -> Result<usize, LexFault>
    requires { at + length bytes.now < 2 ^ 32 }
    ensures reads { Reads (token_step tt at bytes.now) tokens.old.items tokens.new.items result }
    ensures order { InOrder at 0 tokens.old.items
        → IfOk result (λ more. InOrder (at + 1 + more) 0 tokens.new.items) }
    ensures within { IfOk result (λ more. 1 + more ≤ length bytes.now) }
{
    let [first, rest @ ..] = bytes else {
        return Err(LexFault::BadByte(at));
    };
    if is_blank(*first) {
        return keep(tokens, at, gap(Run::Blanks.size(rest)));
    }
    if begins_word(*first) {
        return keep(tokens, at, word_here(at, rest)?);
    }
    if is_digit_in(10, *first) {
        return keep(tokens, at, decimal_here(at, bytes)?);
    }
    match *first {
        b'"' => keep(tokens, at, string_here(at, rest)?),
        b'\'' => keep(tokens, at, character_here(at, rest)?),
        b'!' => keep(tokens, at, gap(comment_size(rest))),
        b'$' => keep(tokens, at, dollar_here(at, rest)?),
        _ => keep(tokens, at, symbol_here(at, bytes)?),
    }
}
