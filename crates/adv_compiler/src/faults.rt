//! Why a source stands for no database.
use std::alloc::{AllocError, AllocFailed};

/// The first fault of a source in the order of its text. Each has a place in the text.
#[derive(Clone, Copy, Debug, PartialEq, Eq)]
pub enum CompileFault {
    /// A name, or a string of a head, that no entry has.
    Unnamed(usize),
    /// A name that an entry before it in the same list has.
    Twice(usize),
    /// A sixth condition of a line.
    TooManyConditions(usize),
    /// A fifth opcode of a line.
    TooManyOpcodes(usize),
    /// A number out of its range, and the number.
    Limit(usize, i64),
    /// There is no memory for the database.
    Memory,
}

impl<T: Drop> From<AllocFailed<T>> for CompileFault {
    ghost use Rattle.std.specs.Prelude.{◌≡◌};
    ghost use Rattle.adv_compiler.specs.declared.faults.CompileFault.TheVariants.{Memory};

    ghost from_gives = { λ _ fault. fault ≡ Memory };

    fn from(_e: AllocFailed<T>) -> CompileFault {
        CompileFault::Memory
    }
}

impl From<AllocError> for CompileFault {
    ghost use Rattle.std.specs.Prelude.{◌≡◌};
    ghost use Rattle.adv_compiler.specs.declared.faults.CompileFault.TheVariants.{Memory};

    ghost from_gives = { λ _ fault. fault ≡ Memory };

    fn from(_fault: AllocError) -> CompileFault {
        CompileFault::Memory
    }
}
