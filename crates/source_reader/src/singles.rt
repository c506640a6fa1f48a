//! Reading one thing: a number, a string, a name, a mark.
ghost use Rattle.std.specs.Prelude.{◌≡◌};
ghost use Rattle.source_reader.specs.Plan.{Follows};
ghost use Rattle.source_reader.specs.Singles.{is_mark, is_word, is_end, is_end_mark, any_token, symbol, key, end_of_text, number, string, reference, item_place, vocab_word};

use crate::faults::SourceFault;
use crate::names::is_name;
use crate::scanning::{pass_gap, token};
use crate::tokens::Token;
use crate::tree::{At, Ref, Spot, Vocab};
use adv_text::Scan;
use scott_types::Text;
use std::alloc::Global;

/// Reads any token.
#[tactic(auto, unfolding(crate::specs::Singles::any_token))]
pub fn any_token(alloc: Global, scan: &mut Scan) -> Result<At<Token>, SourceFault>
    ensures { Follows any_token scan.old result scan.new }
{
    pass_gap(scan);
    let at = scan.at();
    let what = token(alloc, scan)?;
    Ok(At { at, what })
}

/// Whether a token is this mark.
pub fn is_mark(byte: u8, token: &Token) -> bool
    ensures { result ≡ is_mark byte token.now }
{
    match token {
        Token::Mark(mark) => *mark == byte,
        _ => false,
    }
}

/// Whether a token is this word.
pub fn is_word(word: &[u8], token: &Token) -> bool
    ensures { result ≡ is_word word.now token.now }
{
    match token {
        Token::Word(bytes) => bytes.as_slice() == word,
        _ => false,
    }
}

// Whether a mark mostly stands right after what it ends.
fn is_end_mark(byte: u8) -> bool
    ensures { result ≡ is_end_mark byte }
{
    matches!(byte, b';' | b',' | b')')
}

/// Reads a mark of the language.
#[tactic(auto, using(crate::proofs::Plans::sections), unfolding(crate::specs::Singles::symbol))]
pub fn symbol(alloc: Global, scan: &mut Scan, byte: u8) -> Result<(), SourceFault>
    ensures { Follows (symbol byte) scan.old result scan.new }
{
    let rest = scan.rest();
    if is_end_mark(byte) && rest.len() >= 1 && rest[0] == byte {
        scan.pass(1);
        return Ok(());
    }
    let found = any_token(alloc, scan)?;
    if !is_mark(byte, &found.what) {
        return Err(SourceFault::Unexpected(found.at));
    }
    Ok(())
}

/// Reads a word of the language.
#[tactic(auto, using(crate::proofs::Plans::sections), unfolding(crate::specs::Singles::key))]
pub fn key(alloc: Global, scan: &mut Scan, word: &[u8]) -> Result<(), SourceFault>
    ensures { Follows (key word.now) scan.old result scan.new }
{
    let found = any_token(alloc, scan)?;
    if !is_word(word, &found.what) {
        return Err(SourceFault::Unexpected(found.at));
    }
    Ok(())
}

/// Reads the end of the text.
#[tactic(auto, using(crate::proofs::Plans::sections), unfolding(crate::specs::Singles::end_of_text))]
pub fn end_of_text(alloc: Global, scan: &mut Scan) -> Result<(), SourceFault>
    ensures { Follows end_of_text scan.old result scan.new }
{
    let found = any_token(alloc, scan)?;
    match found.what {
        Token::End => Ok(()),
        _ => Err(SourceFault::Unexpected(found.at)),
    }
}

/// Reads a number.
#[tactic(auto, using(crate::proofs::Plans::sections), unfolding(crate::specs::Singles::number))]
pub fn number(alloc: Global, scan: &mut Scan) -> Result<At<i32>, SourceFault>
    ensures { Follows number scan.old result scan.new }
{
    let At { at, what } = any_token(alloc, scan)?;
    match what {
        Token::Number(number) => Ok(At { at, what: number }),
        _ => Err(SourceFault::Unexpected(at)),
    }
}

/// Reads a string.
#[tactic(auto, using(crate::proofs::Plans::sections), unfolding(crate::specs::Singles::string))]
pub fn string(alloc: Global, scan: &mut Scan) -> Result<Text, SourceFault>
    ensures { Follows string scan.old result scan.new }
{
    let At { at, what } = any_token(alloc, scan)?;
    match what {
        Token::Quoted(text) => Ok(text),
        _ => Err(SourceFault::Unexpected(at)),
    }
}

/// Reads a number or a name.
#[tactic(auto, using(crate::proofs::Plans::sections), unfolding(crate::specs::Singles::reference))]
pub fn reference(alloc: Global, scan: &mut Scan) -> Result<At<Ref>, SourceFault>
    ensures { Follows reference scan.old result scan.new }
{
    let At { at, what } = any_token(alloc, scan)?;
    match what {
        Token::Number(number) => Ok(At {
            at,
            what: Ref::Number(number),
        }),
        Token::Word(word) => {
            if !is_name(word.as_slice()) {
                return Err(SourceFault::Unexpected(at));
            }
            Ok(At {
                at,
                what: Ref::Name(word.into_bytes(alloc)?),
            })
        }
        _other => Err(SourceFault::Unexpected(at)),
    }
}

/// Reads the place of an item: a room, `carried` or `nowhere`.
#[tactic(auto, using(crate::proofs::Plans::sections), unfolding(crate::specs::Singles::item_place))]
pub fn item_place(alloc: Global, scan: &mut Scan) -> Result<At<Spot>, SourceFault>
    ensures { Follows item_place scan.old result scan.new }
{
    let At { at, what } = any_token(alloc, scan)?;
    match what {
        Token::Number(number) => Ok(At {
            at,
            what: Spot::Room(Ref::Number(number)),
        }),
        Token::Word(word) => {
            if word.as_slice() == b"carried".as_slice() {
                return Ok(At {
                    at,
                    what: Spot::Carried,
                });
            }
            if word.as_slice() == b"nowhere".as_slice() {
                return Ok(At {
                    at,
                    what: Spot::Nowhere,
                });
            }
            if !is_name(word.as_slice()) {
                return Err(SourceFault::Unexpected(at));
            }
            Ok(At {
                at,
                what: Spot::Room(Ref::Name(word.into_bytes(alloc)?)),
            })
        }
        _other => Err(SourceFault::Unexpected(at)),
    }
}

/// Reads a verb or a noun: a number, or a string.
#[tactic(auto, using(crate::proofs::Plans::sections), unfolding(crate::specs::Singles::vocab_word))]
pub fn vocab_word(alloc: Global, scan: &mut Scan) -> Result<At<Vocab>, SourceFault>
    ensures { Follows vocab_word scan.old result scan.new }
{
    let At { at, what } = any_token(alloc, scan)?;
    match what {
        Token::Number(number) => Ok(At {
            at,
            what: Vocab::Number(number),
        }),
        Token::Quoted(text) => Ok(At {
            at,
            what: Vocab::Exact(text),
        }),
        _ => Err(SourceFault::Unexpected(at)),
    }
}
