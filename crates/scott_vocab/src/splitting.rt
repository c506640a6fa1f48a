//! The words of a typed line.
ghost use Rattle.std.specs.Prelude.{◌≡◌, ◌≤◌, not, length, IfSome};
ghost use Rattle.std.specs.List.{prefix_len};
ghost use Rattle.scott_rules.specs.Commands.{is_space, next_word, word_at, word_after, split, typed_noun};
ghost use Rattle.scott_vocab.specs.Span.{IsWithin};

use adv_io::Line;
use scott_types::Words;

/// Where the first two words of a line stand, each a start and a length in bytes. Later words are
/// ignored.
///
/// docs/TURN.md, "A line", states the rule.
pub fn split(line: &Line) -> Words
    ensures value { result ≡ split line.now }
    ensures first_within { IfSome result.first (λ span. IsWithin span line.now) }
    ensures second_within { IfSome result.second (λ span. IsWithin span line.now) }
{
    let bytes = line.bytes();
    let first = word_from(bytes, 0);
    Words {
        first,
        second: second_word(bytes, first),
    }
}

/// The second word of a line as it was typed, or nothing.
pub fn typed_noun(line: &Line) -> &[u8]
    ensures { result.now ≡ typed_noun line.now }
{
    match split(line).second {
        Some((start, length)) => word_at(line, start, length),
        None => &[],
    }
}

/// The bytes of a line at a place, its start and its length as `split` and `command` give them.
pub fn word_at(line: &Line, start: u8, length: u8) -> &[u8]
    requires { IsWithin (start, length) line.now }
    ensures { result.now ≡ word_at line.now (start, length) }
{
    let start = start as usize;
    &line.bytes()[start..start + length as usize]
}

// The first word at or after a place.
fn word_from(bytes: &[u8], place: usize) -> Option<(u8, u8)>
    requires there { place ≤ length bytes.now }
    requires short { length bytes.now ≤ 120 }
    ensures value { result ≡ next_word bytes.now place }
    ensures within { IfSome result (λ span. IsWithin span bytes.now) }
{
    let start = place + spaces_at(&bytes[place..]);
    let size = length_at(&bytes[start..]);
    (size > 0).then_some((start as u8, size as u8))
}

// The first word after another one.
fn second_word(bytes: &[u8], first: Option<(u8, u8)>) -> Option<(u8, u8)>
    requires there { IfSome first (λ span. IsWithin span bytes.now) }
    requires short { length bytes.now ≤ 120 }
    ensures value { result ≡ word_after bytes.now first }
    ensures within { IfSome result (λ span. IsWithin span bytes.now) }
{
    let (start, size) = first?;
    word_from(bytes, start as usize + size as usize)
}

// How many blanks the bytes begin with.
fn spaces_at(bytes: &[u8]) -> usize
    ensures value { result ≡ prefix_len is_space bytes.now }
    ensures within { result ≤ length bytes.now }
{
    bytes.iter().take_while(|byte| **byte == b' ').count()
}

// How long the word is that the bytes begin with.
fn length_at(bytes: &[u8]) -> usize
    ensures value { result ≡ prefix_len (λ byte. not (is_space byte)) bytes.now }
    ensures within { result ≤ length bytes.now }
{
    bytes.iter().take_while(|byte| **byte != b' ').count()
}
