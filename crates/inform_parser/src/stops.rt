//! Why the parser stops.
use adv_io::Memory;
use std::alloc::{AllocError, AllocFailed};

/// Why nothing more is read. The fault stands where the parser stands.
#[derive(Clone, Copy)]
pub enum Stop {
    /// What stands next can't stand there.
    Unexpected,
    /// `&&` where conditions are joined by `||`, or the other way round.
    Mixed,
    /// An opener where no more may be open.
    TooDeep,
    /// There is no memory for the tree.
    Memory,
}

impl<T: Drop> From<AllocFailed<T>> for Stop {
    ghost use Rattle.std.specs.Prelude.{◌≡◌};
    ghost use Rattle.inform_parser.specs.declared.stops.Stop.TheVariants.{Memory};

    ghost from_gives = { λ _ stop. stop ≡ Memory };

    fn from(_fault: AllocFailed<T>) -> Stop {
        Stop::Memory
    }
}

impl From<AllocError> for Stop {
    ghost use Rattle.std.specs.Prelude.{◌≡◌};
    ghost use Rattle.inform_parser.specs.declared.stops.Stop.TheVariants.{Memory};

    ghost from_gives = { λ _ stop. stop ≡ Memory };

    fn from(_fault: AllocError) -> Stop {
        Stop::Memory
    }
}

impl From<Memory> for Stop {
    ghost use Rattle.std.specs.Prelude.{◌≡◌};
    ghost use Rattle.inform_parser.specs.declared.stops.Stop.TheVariants.{Memory};

    ghost from_gives = { λ _ stop. stop ≡ Memory };

    fn from(_fault: Memory) -> Stop {
        Stop::Memory
    }
}
