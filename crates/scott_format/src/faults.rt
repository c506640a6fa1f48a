//! Why a text is no database.
use adv_text::TextFault;
use std::alloc::{AllocError, AllocFailed};

/// A number of the header that has a limit.
#[derive(Clone, Copy, Debug, PartialEq, Eq)]
pub enum Field {
    /// 0..254.
    HighestItem,
    /// 0..4999.
    HighestAction,
    /// 0..999.
    HighestWord,
    /// 0..254.
    HighestRoom,
    /// 1..20.
    WordLength,
    /// -1 or more.
    LightTime,
    /// 0..999.
    HighestMessage,
}

/// The first fault of a text in the order of the file. Places are counted in bytes from the start.
#[derive(Clone, Copy, Debug, PartialEq, Eq)]
pub enum FormatFault {
    /// No digits stand where a number is due; the place after the whitespace.
    NoNumber(usize),
    /// A number lies outside 32 bits with a sign; the place of its first byte.
    BigNumber(usize),
    /// No quote stands where a string is due; the place after the whitespace.
    NoQuote(usize),
    /// The file ends in a string of at most 4,096 kept bytes; the place of its opening quote.
    OpenString(usize),
    /// A string has a 4,097th kept byte; the place of its opening quote.
    LongString(usize),
    /// A number of the header breaks its limit.
    Limit(Field, i32),
    /// The start room isn't in 0..highest room.
    NoStart(i32),
    /// A number of this action is negative.
    NegativeAction(u16),
    /// There is no memory for the database.
    Memory,
}

impl From<TextFault> for FormatFault {
    ghost use Rattle.std.specs.Prelude.{◌≡◌};
    ghost use Rattle.scott_format.specs.Faults.{of_text};

    ghost from_gives = { λ given fault. fault ≡ of_text given };

    fn from(fault: TextFault) -> FormatFault {
        match fault {
            TextFault::NoNumber(at) => FormatFault::NoNumber(at),
            TextFault::BigNumber(at) => FormatFault::BigNumber(at),
            TextFault::NoQuote(at) => FormatFault::NoQuote(at),
            TextFault::OpenString(at) => FormatFault::OpenString(at),
            TextFault::LongString(at) => FormatFault::LongString(at),
            TextFault::Memory => FormatFault::Memory,
        }
    }
}

impl<T: Drop> From<AllocFailed<T>> for FormatFault {
    ghost use Rattle.std.specs.Prelude.{◌≡◌};
    ghost use Rattle.scott_format.specs.declared.faults.FormatFault.TheVariants.{Memory};

    ghost from_gives = { λ _ fault. fault ≡ Memory };

    fn from(_e: AllocFailed<T>) -> FormatFault {
        FormatFault::Memory
    }
}

impl From<AllocError> for FormatFault {
    ghost use Rattle.std.specs.Prelude.{◌≡◌};
    ghost use Rattle.scott_format.specs.declared.faults.FormatFault.TheVariants.{Memory};

    ghost from_gives = { λ _ fault. fault ≡ Memory };

    fn from(_fault: AllocError) -> FormatFault {
        FormatFault::Memory
    }
}
