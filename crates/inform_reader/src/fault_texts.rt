//! What is said of a fault.
ghost use Rattle.std.specs.Prelude.{◌≡◌, map};

use crate::faults::ProgramFault;
use itoa::Buffer;

impl ProgramFault {
    ghost use Rattle.inform_reader.specs.FaultTexts.{fault_pieces};

    /// The pieces of what is said of the fault. A number is written into `digits`. Want of memory
    /// has no text: its pieces are empty.
    pub fn pieces<'a>(&'a self, digits: &'a mut Buffer) -> [&'a [u8]; 3]
        ensures { map (λ piece. piece.now) result ≡ fault_pieces self.now }
    {
        match self {
            ProgramFault::NoTokens(fault) => {
                let [opening, place] = fault.pieces(digits);
                [opening, place, b""]
            }
            ProgramFault::NoSentence(fault) => {
                let [opening, place] = fault.pieces(digits);
                [opening, place, b""]
            }
            ProgramFault::NotAccepted(fault) => fault.pieces(digits),
            ProgramFault::Memory => [b"", b"", b""],
        }
    }
}
