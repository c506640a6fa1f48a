//! What stands between the quotes of a string.
ghost use Rattle.std.specs.Prelude.{◌≡◌, ◌++◌, ◌<◌, replicate, length, IfOk, IfSome};
ghost use Rattle.inform_lexer.specs.Strings.{inside_said};
ghost use Rattle.inform_lexer.specs.Spans.{or_nothing};
ghost use Rattle.inform_lexer.specs.Views.{refused_at};

use crate::strings::string_piece;
use std::alloc::{AllocError, Global};

/// The place of the first byte that can't stand there, if there is one.
pub fn refused(inside: &[u8]) -> Option<usize>
    ensures value { result ≡ refused_at (inside_said inside.now) }
    ensures within { IfSome result (λ place. place < length inside.now) }
{
    let mut at = 0;
    let mut caret = false;
    while at < inside.len() {
        match string_piece(caret, at, &inside[at..]) {
            Ok(piece) => {
                at = at + 1 + piece.more;
                caret = piece.caret;
            }
            Err(place) => return Some(place),
        }
    }
    None
}

// Adds so many times this byte, which most often is once.
#[inline(always)]
fn say(text: &mut Vec<u8>, byte: u8, count: usize) -> Result<(), AllocError>
    ensures { IfOk result (λ _. text.new.items ≡ text.old.items ++ replicate count byte) }
{
    if count == 1 {
        text.push(byte)?;
        return Ok(());
    }
    for _ in 0..count {
        text.push(byte)?;
    }
    Ok(())
}

/// What these bytes say, and nothing where one of them can't stand there.
pub fn inside_text(alloc: Global, inside: &[u8]) -> Result<Vec<u8>, AllocError>
    ensures { IfOk result (λ text. text.items ≡ or_nothing (inside_said inside.now)) }
{
    let mut text = Vec::with_capacity(alloc, inside.len())?;
    let mut at = 0;
    let mut caret = false;
    while at < inside.len() {
        match string_piece(caret, at, &inside[at..]) {
            Ok(piece) => {
                say(&mut text, piece.byte, piece.count)?;
                at = at + 1 + piece.more;
                caret = piece.caret;
            }
            Err(_) => return Ok(Vec::new(alloc)),
        }
    }
    Ok(text)
}
