//! Why a text is no source.
use std::alloc::{AllocError, AllocFailed};
use thiserror::Error;

/// The first fault of a text. Each has the place of the token's first byte, counted from the
/// beginning, or the length of the text where it ends too early. As an error it has a text of its
/// own, of which no clause speaks: the program says a fault in pieces.
#[derive(Clone, Copy, Debug, PartialEq, Eq, Error)]
pub enum SourceFault {
    /// A token that can't stand there, or the end of the text.
    #[error("unexpected text at {0}")]
    Unexpected(usize),
    /// A number outside 32 bits with a sign.
    #[error("number too large at {0}")]
    BigNumber(usize),
    /// A string of at most 4,096 kept bytes in which the text ends.
    #[error("string not closed at {0}")]
    OpenString(usize),
    /// A string with a 4,097th kept byte.
    #[error("string too long at {0}")]
    LongString(usize),
    /// A name of more than 32 bytes.
    #[error("name too long at {0}")]
    LongName(usize),
    /// There is no memory for the source.
    #[error("out of memory")]
    Memory,
}

impl<T: Drop> From<AllocFailed<T>> for SourceFault {
    ghost use Rattle.std.specs.Prelude.{◌≡◌};
    ghost use Rattle.source_reader.specs.declared.faults.SourceFault.TheVariants.{Memory};

    ghost from_gives = { λ _ fault. fault ≡ Memory };

    fn from(_e: AllocFailed<T>) -> SourceFault {
        SourceFault::Memory
    }
}

impl From<AllocError> for SourceFault {
    ghost use Rattle.std.specs.Prelude.{◌≡◌};
    ghost use Rattle.source_reader.specs.declared.faults.SourceFault.TheVariants.{Memory};

    ghost from_gives = { λ _ fault. fault ≡ Memory };

    fn from(_fault: AllocError) -> SourceFault {
        SourceFault::Memory
    }
}
