//! Parts of a game that are made from their numbers, one after the other.
ghost use Rattle.std.specs.Prelude.{ℕ, ◌≡◌, ◌≤◌, ◌<◌, IfOk, OnOk};
ghost use Rattle.rand_pcg.specs.Lcg.{Lcg};
ghost use Rattle.adv_gen.specs.Picks.{after, picks_before, picked};

use crate::picks::Picks;
use adv_io::Memory;
use std::alloc::Global;

/// A part of a game that is made from its number and from picks.
pub trait Part: Drop {
    // The part, in a game of this size, of this number, from the picks that come next.
    ghost part: { ℕ → ℕ → Lcg → Self };

    // How many of them it takes.
    ghost taken: { ℕ → ℕ };

    /// The part of a number, in a game of a size of 8 to 120.
    fn make(alloc: Global, size: u16, number: u16, picks: &mut Picks) -> Result<Self, Memory>
        requires some { 8 ≤ size }
        requires small { size ≤ 120 }
        requires few { number < 1200 }
        ensures made { IfOk result (λ made. made ≡ part size number picks.old) }
        ensures next { OnOk result (picks.new ≡ after (taken number) picks.old) };
}

/// So many parts, in the order of their numbers.
pub fn each<T: Part>(
    alloc: Global,
    size: u16,
    count: u16,
    picks: &mut Picks,
) -> Result<Vec<T>, Memory>
    requires some { 8 ≤ size }
    requires small { size ≤ 120 }
    requires few { count ≤ 1200 }
    ensures made { IfOk result
        (λ parts. parts.items ≡ picked T.taken (T.part size) count picks.old) }
    ensures next { OnOk result (picks.new ≡ after (picks_before T.taken count) picks.old) }
{
    let mut parts = Vec::new(alloc);
    for number in 0..count {
        let part = T::make(alloc, size, number, picks)?;
        parts.push(part)?;
    }
    Ok(parts)
}
