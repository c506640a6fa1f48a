//! What a token says to the grammar.
ghost use Rattle.std.specs.Prelude.{◌≡◌, ◌≤◌, ℕ, List, take, length, map, slice_index, IfOk, Option};
ghost use Rattle.std.specs.Char.{to_ascii_lowercase};
ghost use Rattle.inform_lexemes.specs.Lexemes.{word_lexeme, Name as NameLexeme, Quoted as QuotedLexeme};
ghost use Rattle.inform_lexer.specs.Spans.{span, word_said, number_said, number_lexeme, inside, string_said, lexeme_of, lexeme_at, glance_of};

use crate::glances::Glance;
use crate::insides::inside_text;
use crate::kinds::{Kind, Token};
use crate::numbers::number_in;
use crate::signs::symbol_of;
use crate::words::{keyword_of, looks_reserved};
use adv_io::Memory;
use inform_tree::{NAME_LIMIT, Name, Text, is_reserved};
use std::alloc::Global;

// The bytes of a token.
fn span(bytes: &[u8], token: Token) -> &[u8]
    ensures { result.now ≡ span bytes.now token }
{
    let end = (token.end as usize).min(bytes.len());
    let start = (token.start as usize).min(end);
    &bytes[start..end]
}

// Writes a word in lower case over the first of these bytes.
fn write_lower(word: &[u8], lower: &mut [u8])
    requires { length word.now ≤ length lower.old }
    ensures { take (length word.now) lower.new ≡ word_said word.now }
{
    for (i, byte) in word.iter().enumerate() {
        lower[i] = byte.to_ascii_lowercase();
    }
}

// What a word says that may be a reserved one, in whatever case.
#[inline(never)]
#[tactic(auto, using(crate::proofs::Names::free_word), unfolding(inform_lexemes::specs::Lexemes::word_lexeme))]
fn folded_glance(word: &[u8]) -> Glance
    requires { length word.now ≤ 32 }
    ensures { result ≡ glance_of (word_lexeme (word_said word.now)) }
{
    let mut buffer = [0; NAME_LIMIT];
    write_lower(word, &mut buffer);
    let lower = &buffer[..word.len()];
    match keyword_of(lower) {
        Some(keyword) => Glance::Word(keyword),
        None if is_reserved(lower) => Glance::Reserved,
        None => Glance::Name,
    }
}

// What a word says that may be a reserved one. Most stand in lower case as they are.
#[inline(never)]
fn reserved_glance(word: &[u8]) -> Glance
    requires { length word.now ≤ 32 }
    ensures { result ≡ glance_of (word_lexeme (word_said word.now)) }
{
    match keyword_of(word) {
        Some(keyword) => Glance::Word(keyword),
        None => folded_glance(word),
    }
}

// What a word says, where it isn't too long. Most are seen to be names before they are copied.
#[inline(always)]
fn word_glance(word: &[u8]) -> Glance
    requires { length word.now ≤ 32 }
    ensures { result ≡ glance_of (word_lexeme (word_said word.now)) }
{
    if looks_reserved(word) {
        reserved_glance(word)
    } else {
        Glance::Name
    }
}

// The number that a token is, where it is one.
fn number_said(bytes: &[u8]) -> Option<u32>
    ensures { result ≡ number_said bytes.now }
{
    match bytes {
        [b'$', b'$', digits @ ..] => number_in(2, digits),
        [b'$', digits @ ..] => number_in(16, digits),
        _ => number_in(10, bytes),
    }
}

// The byte after the first one, and 0 where there is none.
fn second_byte(bytes: &[u8]) -> u8
    ensures { result ≡ slice_index bytes.now 1 }
{
    match bytes {
        [_, byte, ..] => *byte,
        _ => 0,
    }
}

/// What a token of these bytes says, without memory. A span that is no token of its kind says what
/// begins nothing.
///
/// docs/INFORM.md has the rules ("Tokens").
pub fn glance(bytes: &[u8], token: Token) -> Glance
    ensures { result ≡ glance_of (lexeme_at bytes.now token) }
{
    let span = span(bytes, token);
    match token.kind {
        Kind::Word if span.len() <= NAME_LIMIT => word_glance(span),
        Kind::Word => Glance::Reserved,
        Kind::Number => match number_said(span) {
            Some(number) => Glance::Number(number),
            None => Glance::Reserved,
        },
        Kind::Character => Glance::Character(second_byte(span)),
        Kind::Quoted => Glance::Quoted,
        Kind::Symbol => match symbol_of(span) {
            Some(symbol) => Glance::Symbol(symbol),
            None => Glance::Reserved,
        },
    }
}

/// The name that a token of these bytes is, in lower case.
#[tactic(auto, using(crate::proofs::Said::name_bytes))]
pub fn name(alloc: Global, bytes: &[u8], token: Token) -> Result<Name, Memory>
    ensures { IfOk result (λ found. (name : List ℕ)
        → lexeme_at bytes.now token ≡ NameLexeme name → found ≡ name) }
{
    Ok(Name::lower_of(alloc, span(bytes, token))?)
}

// The bytes between the quotes of a string.
fn inside(bytes: &[u8]) -> &[u8]
    ensures { result.now ≡ inside bytes.now }
{
    match bytes {
        [_, inside @ .., _] => inside,
        _ => &[],
    }
}

/// The text that a token of these bytes says between its quotes.
#[tactic(auto, using(crate::proofs::Said::text_bytes))]
pub fn text(alloc: Global, bytes: &[u8], token: Token) -> Result<Text, Memory>
    ensures { IfOk result (λ found. (text : List ℕ)
        → lexeme_at bytes.now token ≡ QuotedLexeme text → found ≡ text) }
{
    let inside = inside(span(bytes, token));
    Ok(Text::of(inside_text(alloc, inside)?))
}
