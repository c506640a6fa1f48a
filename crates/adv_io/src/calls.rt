//! Calls that are numbered from 1, of which some fail. Both doubles in memory count by it.
ghost use Rattle.std.specs.Prelude.{◌≡◌, ◌≤◌};
ghost use Rattle.adv_io.specs.CallCount.{CallCount, unused, fails_next, after_next, with_fault};

use std::marker::Model;

/// The number of the last call, the count of faults, and the numbers of the calls that fail.
///
/// Numbers and counts stay at 18446744073709551615 once they are there.
#[derive(Drop)]
pub struct Calls {
    made: u64,
    faults: u64,
    failing: Vec<u64>,
}

impl Model for Calls {
    ghost use Rattle.adv_io.specs.CallCount.{CallCount};

    ghost Value = { CallCount };

    ghost view = { λ c. record { made = c.made; faults = c.faults; failing = c.failing.items } };
}

impl Calls {
    /// No call yet. Those with the numbers in `failing` are to fail.
    pub fn new(failing: Vec<u64>) -> Calls
        ensures { result ≡ unused failing.items }
    {
        Calls {
            made: 0,
            faults: 0,
            failing,
        }
    }

    /// Counts a call, and answers whether it fails. Then a fault is counted too.
    pub fn next_fails(&mut self) -> bool
        ensures answer { result ≡ fails_next self.old }
        ensures counted { self.new ≡ after_next self.old }
        ensures never_falls { self.old.faults ≤ self.new.faults }
    {
        self.made = self.made.saturating_add(1);
        let fails = self.failing.contains(&self.made);
        if fails {
            self.count_fault();
        }
        fails
    }

    /// Counts a fault.
    pub fn count_fault(&mut self)
        ensures counted { self.new ≡ with_fault self.old }
        ensures never_falls { self.old.faults ≤ self.new.faults }
    {
        self.faults = self.faults.saturating_add(1);
    }
}
