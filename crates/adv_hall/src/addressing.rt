//! To which session of a hall a line goes.
ghost use Rattle.std.specs.Prelude.{◌≡◌, ◌≤◌, ◌<◌, ℕ, IfSome};
ghost use Rattle.std.specs.Fmt.{decimal};
ghost use Rattle.adv_hall.specs.Address.{number_among, address_of};

use adv_io::Line;
use itoa::Buffer;
use scott_vocab::{split, word_at};
use std::str::from_utf8;

/// A session, and the line that it is given.
#[derive(Drop)]
pub struct Address {
    pub session: u8,
    pub line: Line,
}

// The number, if it is one of 1..count and the word writes it without leading zeros.
fn if_among(count: u8, number: u8, word: &[u8]) -> Option<u8>
    requires { (j : ℕ) → j < 256 → decimal j ≡ word.now → j ≡ number }
    ensures { result ≡ number_among count word.now }
{
    if number == 0 || number > count || Buffer::new().format(number).as_bytes() != word {
        return None;
    }
    Some(number)
}

// The number of 1..count that a word writes, in decimal and without leading zeros.
fn number_among(count: u8, word: &[u8]) -> Option<u8>
    ensures { result ≡ number_among count word.now }
{
    match from_utf8(word) {
        Ok(text) => match text.parse::<u8>() {
            Ok(number) => if_among(count, number, word),
            Err(_) => None,
        },
        Err(_) => None,
    }
}

/// The session of 1..count whose number is the first word of a line, and what follows the first
/// space behind that word; or none for any other line. docs/TURN.md, "A hall", has the rule.
pub fn address_in(count: u8, line: &Line) -> Option<Address>
    ensures value { result ≡ address_of count line.now }
    ensures range { IfSome result (λ a. (1 ≤ a.session) × (a.session ≤ count)) }
{
    let bytes = line.bytes();
    let (start, length) = split(line).first?;
    let session = number_among(count, word_at(line, start, length))?;
    let rest = (usize::from(start) + usize::from(length) + 1).min(bytes.len());
    Some(Address {
        session,
        line: Line::of(&bytes[rest..]),
    })
}
