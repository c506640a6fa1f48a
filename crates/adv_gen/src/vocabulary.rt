//! Words by their numbers.
ghost use Rattle.std.specs.Prelude.{◌≡◌, ◌≤◌, ◌<◌, ◌+◌, IfOk, IfSome, IfNone};
ghost use Rattle.adv_gen.specs.Vocabulary.{numbered, letter_v, letter_x, verb, noun, thing_noun, word};

use crate::parts::Part;
use crate::picks::Picks;
use crate::texts::text;
use adv_io::Memory;
use scott_types::{Text, Word};
use std::alloc::Global;

/// The first noun after those of the directions.
pub const FIRST_THING: u16 = 7;

// A letter, and two more that count on from AA.
fn numbered(letter: u8, k: u16) -> [u8; 3]
    requires { k < 1200 }
    ensures { result ≡ numbered letter k }
{
    [letter, b'A' + (k / 26) as u8, b'A' + (k % 26) as u8]
}

/// A verb of 3 to 9, which have no meaning of their own.
pub fn plain_verb(k: u16) -> [u8; 3]
    requires low { 3 ≤ k }
    requires high { k ≤ 9 }
    ensures value { result ≡ verb k }
{
    numbered(b'V', k)
}

/// The noun of a thing.
pub fn thing_noun(size: u16, k: u16) -> [u8; 3]
    requires small { size ≤ 120 }
    ensures value { result ≡ thing_noun size k }
{
    numbered(b'X', FIRST_THING + k % (size + 30))
}

/// The noun `ANY`, or that of a direction, 1 to 6.
#[tactic(auto, unfolding(crate::specs::Vocabulary::noun))]
pub fn direction(k: u16) -> &'static [u8]
    requires { k < 7 }
    ensures { result.now ≡ noun k }
{
    match k {
        0 => b"ANY",
        1 => b"NORTH",
        2 => b"SOUTH",
        3 => b"EAST",
        4 => b"WEST",
        5 => b"UP",
        _ => b"DOWN",
    }
}

// The verb of an entry that has a meaning of its own, or a synonym's.
#[tactic(auto, unfolding(crate::specs::Vocabulary::verb))]
fn named_verb(k: u16) -> Option<&'static [u8]>
    ensures named { IfSome result (λ name. name.now ≡ verb k) }
    ensures plain { IfNone result (verb k ≡ numbered letter_v k) }
{
    match k {
        0 => Some(b"AUT"),
        1 => Some(b"GO"),
        2 => Some(b"*RUN"),
        10 => Some(b"GET"),
        18 => Some(b"DROP"),
        _ => None,
    }
}

fn verb(alloc: Global, k: u16) -> Result<Text, Memory>
    requires { k < 1200 }
    ensures { IfOk result (λ text. text ≡ verb k) }
{
    match named_verb(k) {
        Some(name) => text(alloc, &[name]),
        None => text(alloc, &[&numbered(b'V', k)]),
    }
}

fn noun(alloc: Global, k: u16) -> Result<Text, Memory>
    requires { k < 1200 }
    ensures { IfOk result (λ text. text ≡ noun k) }
{
    if k < FIRST_THING {
        text(alloc, &[direction(k)])
    } else {
        text(alloc, &[&numbered(b'X', k)])
    }
}

impl Part for Word {
    ghost use Rattle.adv_gen.specs.Vocabulary.{word};

    ghost part = { λ _ k _. word k };

    ghost taken = { λ _. 0 };

    fn make(alloc: Global, _size: u16, k: u16, _picks: &mut Picks) -> Result<Word, Memory> {
        let verb = verb(alloc, k)?;
        let noun = noun(alloc, k)?;
        Ok(Word { verb, noun })
    }
}
