//! Why a number or a string could not be read.
ghost use Rattle.std.specs.Prelude.{◌≡◌};
ghost use Rattle.adv_text.specs.declared.faults.TextFault.TheVariants.{Memory};

use std::alloc::{AllocError, AllocFailed};

/// What is wrong at the scan, with the byte at which it is wrong, counted from the beginning.
#[derive(Clone, Copy, Debug, PartialEq, Eq)]
pub enum TextFault {
    /// No digits stand where a number is due; the place after the whitespace.
    NoNumber(usize),
    /// A number lies outside 32 bits with a sign; the place of its first byte.
    BigNumber(usize),
    /// No quote stands where a string is due; the place after the whitespace.
    NoQuote(usize),
    /// The file ends in a string of at most 4,096 kept bytes; the place of its opening quote.
    OpenString(usize),
    /// A string has a 4,097th kept byte; the place of its opening quote.
    LongString(usize),
    /// There is no memory for the string.
    Memory,
}

impl<T: Drop> From<AllocFailed<T>> for TextFault {
    ghost from_gives = { λ _ e. e ≡ Memory };

    fn from(_e: AllocFailed<T>) -> TextFault {
        TextFault::Memory
    }
}

impl From<AllocError> for TextFault {
    ghost use Rattle.std.specs.Prelude.{◌≡◌};
    ghost use Rattle.adv_text.specs.declared.faults.TextFault.TheVariants.{Memory};

    ghost from_gives = { λ _ fault. fault ≡ Memory };

    fn from(_fault: AllocError) -> TextFault {
        TextFault::Memory
    }
}
