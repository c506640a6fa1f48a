//! Why reading stops where the bytes at hand are only the first of a file.
ghost use Rattle.std.specs.Prelude.{◌≡◌};
ghost use Rattle.scott_format.specs.Pieces.{ends_value, settles};

use crate::faults::FormatFault;
use adv_text::Scan;
use std::alloc::AllocFailed;

/// Why not all was read that was to be read.
#[derive(Clone, Copy, Drop)]
pub enum Stop {
    /// The bytes at hand end too early. Where the file ends there too, this is its fault.
    Cut(FormatFault),
    /// This is the fault, whatever follows, or memory ran out.
    Fault(FormatFault),
}

impl Stop {
    ghost use Rattle.scott_format.specs.Pieces.{fault_at};

    /// The fault of a file that ends here.
    pub fn fault(self) -> FormatFault
        ensures { result ≡ fault_at self }
    {
        match self {
            Stop::Cut(fault) | Stop::Fault(fault) => fault,
        }
    }
}

/// What is to be read next.
#[derive(Clone, Copy, Drop)]
pub enum Due {
    Number,
    Text,
}

impl Due {
    ghost use Rattle.scott_format.specs.Faults.{fault_answer};
    ghost use Rattle.scott_format.specs.Pieces.{missing};

    /// The fault of a file that ends here.
    pub fn missing(self, at: usize) -> FormatFault
        ensures { result ≡ fault_answer (missing self at) }
    {
        match self {
            Due::Number => FormatFault::NoNumber(at),
            Due::Text => FormatFault::NoQuote(at),
        }
    }
}

impl<T: Drop> From<AllocFailed<T>> for Stop {
    ghost use Rattle.std.specs.Prelude.{◌≡◌};
    ghost use Rattle.scott_format.specs.declared.faults.FormatFault.TheVariants.{Memory};
    ghost use Rattle.scott_format.specs.declared.stops.Stop.TheVariants.{Fault};

    ghost from_gives = { λ _ stop. stop ≡ Fault Memory };

    fn from(_e: AllocFailed<T>) -> Stop {
        Stop::Fault(FormatFault::Memory)
    }
}

// Whether a number or a string may end with the last of these bytes.
fn ends_value(bytes: &[u8]) -> bool
    ensures { result ≡ ends_value bytes.now }
{
    match bytes {
        [.., last] => last.is_ascii_digit() || *last == b'"',
        [] => true,
    }
}

/// Whether the fault of what stands here is the same whatever follows the bytes.
pub fn settles(fault: FormatFault, scan: &Scan) -> bool
    ensures { result ≡ settles fault scan.now }
{
    let end = scan.at() + scan.rest().len();
    match fault {
        FormatFault::NoNumber(at) => end > 0 && at < end - 1,
        FormatFault::NoQuote(at) => at < end,
        FormatFault::OpenString(_) => false,
        FormatFault::BigNumber(_) | FormatFault::LongString(_) | FormatFault::Memory => true,
        FormatFault::Limit(_, _) | FormatFault::NoStart(_) | FormatFault::NegativeAction(_) => {
            !ends_value(scan.rest())
        }
    }
}
