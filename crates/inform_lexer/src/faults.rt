//! Why a text has no tokens.
use std::alloc::{AllocError, AllocFailed};
use thiserror::Error;

/// The first fault of a text, with its place, counted from the beginning.
#[derive(Clone, Copy, Debug, PartialEq, Eq, Error)]
pub enum LexFault {
    /// A byte that begins no token, as a `$` or `$$` without digits after it.
    #[error("bad byte at {0}")]
    BadByte(usize),
    /// The first byte of a number over 4,294,967,295.
    #[error("number too large at {0}")]
    BigNumber(usize),
    /// The first byte of a name of more than 32 bytes.
    #[error("name too long at {0}")]
    LongName(usize),
    /// The apostrophe before what is no character.
    #[error("bad character at {0}")]
    BadCharacter(usize),
    /// A byte that can't stand in a string, of an escape its first `@`.
    #[error("bad string at {0}")]
    BadString(usize),
    /// The quote of a string that is never closed.
    #[error("string not closed at {0}")]
    OpenString(usize),
    /// There is no memory for the tokens, or no room in them for the places of a longer text.
    #[error("out of memory")]
    Memory,
}

impl<T: Drop> From<AllocFailed<T>> for LexFault {
    ghost use Rattle.std.specs.Prelude.{◌≡◌};
    ghost use Rattle.inform_lexer.specs.declared.faults.LexFault.TheVariants.{Memory};

    ghost from_gives = { λ _ fault. fault ≡ Memory };

    fn from(_e: AllocFailed<T>) -> LexFault {
        LexFault::Memory
    }
}

impl From<AllocError> for LexFault {
    ghost use Rattle.std.specs.Prelude.{◌≡◌};
    ghost use Rattle.inform_lexer.specs.declared.faults.LexFault.TheVariants.{Memory};

    ghost from_gives = { λ _ fault. fault ≡ Memory };

    fn from(_fault: AllocError) -> LexFault {
        LexFault::Memory
    }
}
