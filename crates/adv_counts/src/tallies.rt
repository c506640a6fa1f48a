//! Counts that have their own memory.
ghost use Rattle.std.specs.Prelude.{◌≡◌, IfOk, replicate};
ghost use Rattle.adv_counts.specs.Counts.{count_of, raised};

use adv_io::Memory;
use std::alloc::Global;
use std::marker::Model;

/// The counts of the numbers from 0 on.
///
/// A clause sees the counts in order.
#[derive(Drop)]
pub struct Tally {
    counts: Vec<u64>,
}

impl Model for Tally {
    ghost use Rattle.std.specs.Prelude.{List, ℕ};

    ghost Value = { List ℕ };

    ghost view = { λ t. t.counts.items };
}

impl Tally {
    /// So many counts, each of them 0.
    pub fn of(alloc: Global, size: usize) -> Result<Tally, Memory>
        ensures { IfOk result (λ tally. tally ≡ replicate size 0) }
    {
        let counts = vec![in alloc; 0; size]?;
        Ok(Tally { counts })
    }

    /// Counts a number once more, where it has a count. A count that is 18446744073709551615 stays
    /// so.
    #[inline(always)]
    pub fn count(&mut self, number: usize)
        ensures { self.new ≡ raised number self.old }
    {
        if number < self.counts.len() {
            self.counts[number] = self.counts[number].saturating_add(1);
        }
    }

    /// The count of a number; 0 where it has none.
    pub fn get(&self, number: usize) -> u64
        ensures { result ≡ count_of self.now number }
    {
        if number < self.counts.len() {
            self.counts[number]
        } else {
            0
        }
    }
}
