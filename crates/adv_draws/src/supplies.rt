//! Draws that are left, and how many were taken.
ghost use Rattle.std.specs.Prelude.{◌≡◌, ◌+◌, ◌*◌, ◌≤◌, length, ◌↔◌, [], ◌∷◌, Ok, IsNone, IfNone, IfSome, IfOk, IfErr};
ghost use Rattle.adv_draws.specs.Run.{AllDraws};
ghost use Rattle.adv_draws.specs.Supply.{untouched};
ghost use Rattle.adv_draws.specs.Seeded.{seeded_draws};
ghost use Rattle.adv_draws.specs.Listed.{listed_draws, IsFaultOf};

use crate::faults::DrawFault;
use crate::runs::first_draw;
use adv_io::is_whitespace;
use rand_core::utils::NextWord;
use rand_pcg::Lcg64Xsh32;
use std::alloc::Global;
use std::marker::Model;

/// How many draws a seed gives.
pub const SEEDED_DRAWS: u64 = 1_000_000;

/// A supply of draws, each of 1..100, in order.
///
/// A clause sees the draws that are left and how many were taken.
#[derive(Drop)]
pub struct Draws {
    source: Source,
    taken: u64,
}

// Draws in a list, of which `taken` are after, or those of a generator's further words.
#[derive(Drop)]
enum Source {
    Listed(Vec<u8>),
    Seeded(Lcg64Xsh32),
}

impl Source {
    ghost use Rattle.adv_draws.specs.Source.{left_of, IsSound};

    // The next draw, where so many were taken, or none where all were.
    fn draw_at(&mut self, taken: u64) -> Option<u8>
        requires sound { IsSound self.old taken }
        ensures none { IfNone result ((left_of self.old taken ≡ []) × (self.new ≡ self.old)) }
        ensures given { IfSome result
            (λ draw. left_of self.old taken ≡ draw ∷ left_of self.new (taken + 1)) }
        ensures sound { IfSome result (λ _. IsSound self.new (taken + 1)) }
        ensures range { IfSome result (λ draw. (1 ≤ draw) × (draw ≤ 100)) }
    {
        match self {
            Source::Listed(draws) => draws.get(taken as usize).copied(),
            Source::Seeded(generator) => {
                if taken == SEEDED_DRAWS {
                    return None;
                }
                Some((generator.next_word() % 100) as u8 + 1)
            }
        }
    }
}

impl Model for Draws {
    ghost use Rattle.adv_draws.specs.Run.{AllDraws};
    ghost use Rattle.adv_draws.specs.Supply.{Supply};

    ghost Value = { Supply };

    ghost use Rattle.adv_draws.specs.Source.{left_of, IsSound};

    ghost view = { λ d. record { left = left_of d.source d.taken; taken = d.taken } };

    ghost invariant = { λ d. IsSound d.source d.taken };
}

impl Draws {
    /// The draws that a text lists: decimal numbers of 1..100 without a sign, between whitespace,
    /// which are the bytes 9..13 and 32. Leading zeros are allowed, and a text of whitespace lists
    /// none. docs/FORMAT.md states the rule.
    pub fn listed(alloc: Global, bytes: &[u8]) -> Result<Draws, DrawFault>
        ensures listed { IfOk result (λ d. listed_draws bytes.now ≡ Ok d.left) }
        ensures fresh { IfOk result (λ d. d.taken ≡ 0) }
        ensures range { IfOk result (λ d. AllDraws d.left) }
        ensures short { IfOk result (λ d. 2 * length d.left ≤ length bytes.now + 1) }
        ensures refused { IfErr result (λ fault. IsFaultOf bytes.now fault) }
    {
        let mut draws = Vec::new(alloc);
        let mut offset = 0;
        while offset < bytes.len() {
            if is_whitespace(bytes[offset]) {
                offset += 1;
                continue;
            }
            let Some((draw, size)) = first_draw(&bytes[offset..]) else {
                return Err(DrawFault::NotADraw(offset));
            };
            draws.push(draw)?;
            // What stands after a run is a byte of whitespace or the end.
            offset += size + 1;
        }
        Ok(Draws {
            source: Source::Listed(draws),
            taken: 0,
        })
    }

    /// The million draws of a seed: each is the next 32-bit word of [`Lcg64Xsh32`] on stream 1,
    /// modulo 100, plus 1. They are made as they are taken, and take no memory.
    pub fn seeded(seed: u64) -> Draws
        ensures value { result ≡ untouched (seeded_draws seed) }
        ensures range { AllDraws result.left }
    {
        Draws {
            source: Source::Seeded(Lcg64Xsh32::new(seed, 1)),
            taken: 0,
        }
    }

    /// Takes the next draw. With `None` nothing changes.
    pub fn next(&mut self) -> Option<u8>
        ensures none { IsNone result ↔ (self.old.left ≡ []) }
        ensures unchanged { IfNone result (self.new ≡ self.old) }
        ensures given { IfSome result (λ draw. self.old.left ≡ draw ∷ self.new.left) }
        ensures counted { IfSome result (λ _. self.new.taken ≡ self.old.taken + 1) }
        ensures range { IfSome result (λ draw. (1 ≤ draw) × (draw ≤ 100)) }
    {
        let draw = self.source.draw_at(self.taken)?;
        self.taken += 1;
        Some(draw)
    }

    /// How many draws were taken.
    pub fn taken(&self) -> u64
        ensures value { result ≡ self.now.taken }
        ensures range { AllDraws self.now.left }
    {
        self.taken
    }
}
