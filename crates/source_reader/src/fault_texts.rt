//! What is said of a fault.
ghost use Rattle.std.specs.Prelude.{◌≡◌, map};
ghost use Rattle.source_reader.specs.FaultTexts.{fault_opening, fault_place, fault_pieces};

use crate::faults::SourceFault;
use itoa::Buffer;

#[tactic(auto, unfolding(crate::specs::FaultTexts::fault_opening))]
fn fault_opening<'a>(fault: SourceFault) -> &'a [u8]
    ensures { result.now ≡ fault_opening fault }
{
    match fault {
        SourceFault::Unexpected(_) => b"unexpected text at ",
        SourceFault::BigNumber(_) => b"number too large at ",
        SourceFault::OpenString(_) => b"string not closed at ",
        SourceFault::LongString(_) => b"string too long at ",
        SourceFault::LongName(_) => b"name too long at ",
        SourceFault::Memory => b"",
    }
}

fn fault_place(fault: SourceFault, digits: &mut Buffer) -> &[u8]
    ensures { result.now ≡ fault_place fault }
{
    match fault {
        SourceFault::Unexpected(at) => digits.format(at).as_bytes(),
        SourceFault::BigNumber(at) => digits.format(at).as_bytes(),
        SourceFault::OpenString(at) => digits.format(at).as_bytes(),
        SourceFault::LongString(at) => digits.format(at).as_bytes(),
        SourceFault::LongName(at) => digits.format(at).as_bytes(),
        SourceFault::Memory => b"",
    }
}

impl SourceFault {
    ghost use Rattle.source_reader.specs.FaultTexts.{fault_pieces};

    /// The pieces of what is said of the fault. Its place is written into `digits`.
    pub fn pieces<'a>(self, digits: &'a mut Buffer) -> [&'a [u8]; 2]
        ensures { map (λ piece. piece.now) result ≡ fault_pieces self }
    {
        [fault_opening(self), fault_place(self, digits)]
    }
}
