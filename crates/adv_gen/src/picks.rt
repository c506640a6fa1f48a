//! Numbers that a generator picks.
ghost use Rattle.std.specs.Prelude.{◌≡◌, ◌≤◌, ◌<◌};
ghost use Rattle.adv_gen.specs.Picks.{generator_of, after, pick};

use rand_core::utils::NextWord;
use rand_pcg::Lcg64Xsh32;
use std::marker::Model;

/// What picks numbers: a generator of 32-bit words.
///
/// A clause sees the generator's state.
#[derive(Drop)]
pub struct Picks {
    generator: Lcg64Xsh32,
}

impl Model for Picks {
    ghost use Rattle.rand_pcg.specs.Lcg.{Lcg};

    ghost Value = { Lcg };

    ghost view = { λ p. p.generator };
}

impl Picks {
    /// The picks of a seed: words of [`Lcg64Xsh32`] on stream 2.
    #[tactic(auto, unfolding(crate::specs::Picks::generator_of))]
    pub fn seeded(seed: u16) -> Picks
        ensures { result ≡ generator_of seed }
    {
        Picks {
            generator: Lcg64Xsh32::new(u64::from(seed), 2),
        }
    }

    /// Picks a number below the bound: the next word modulo it.
    pub fn pick(&mut self, bound: u16) -> u16
        requires { 1 ≤ bound }
        ensures value { result ≡ pick self.old 0 bound }
        ensures below { result < bound }
        ensures next { self.new ≡ after 1 self.old }
    {
        let word = self.generator.next_word();
        (word % u32::from(bound)) as u16
    }
}
