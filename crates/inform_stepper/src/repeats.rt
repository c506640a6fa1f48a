//! At what a run pauses, again and again.
ghost use Rattle.std.specs.Prelude.{◌≡◌, ◌<◌, ◌^◌};
ghost use Rattle.inform_stepper.specs.Repeats.{InRange, awaited};

use crate::pauses::Until;

/// At what a run pauses, as often as it comes there.
#[derive(Clone, Copy, Debug, PartialEq, Eq)]
pub enum Pausing {
    /// At each entering of the routine that is the directive of this number.
    At(usize),
    /// Each time that the number of used steps is a multiple of this one, from 1 to 10^18.
    Every(u64),
}

impl Pausing {
    /// Where a run pauses next, when so many steps were used.
    pub fn after(self, used: u64) -> Until
        requires range { InRange self }
        requires few { used < 2 ^ 63 }
        ensures { result ≡ awaited self used }
    {
        match self {
            Pausing::At(at) => Until::Routine(at),
            Pausing::Every(number) => Until::Step(used + (number - used % number)),
        }
    }
}
