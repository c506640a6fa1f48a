//! What is said of a fault.
ghost use Rattle.std.specs.Prelude.{◌≡◌, map};
ghost use Rattle.inform_parser.specs.FaultTexts.{fault_opening, fault_place, fault_pieces};

use crate::faults::ParseFault;
use itoa::Buffer;

#[tactic(auto, unfolding(crate::specs::FaultTexts::fault_opening))]
fn fault_opening<'a>(fault: ParseFault) -> &'a [u8]
    ensures { result.now ≡ fault_opening fault }
{
    match fault {
        ParseFault::Unexpected(_) => b"unexpected text at ",
        ParseFault::Mixed(_) => b"&& and || mixed at ",
        ParseFault::TooDeep(_) => b"nested too deeply at ",
        ParseFault::Memory => b"",
    }
}

fn fault_place(fault: ParseFault, digits: &mut Buffer) -> &[u8]
    ensures { result.now ≡ fault_place fault }
{
    match fault {
        ParseFault::Unexpected(at) => digits.format(at).as_bytes(),
        ParseFault::Mixed(at) => digits.format(at).as_bytes(),
        ParseFault::TooDeep(at) => digits.format(at).as_bytes(),
        ParseFault::Memory => b"",
    }
}

impl ParseFault {
    ghost use Rattle.inform_parser.specs.FaultTexts.{fault_pieces};

    /// The pieces of what is said of the fault. Its place is written into `digits`.
    pub fn pieces<'a>(self, digits: &'a mut Buffer) -> [&'a [u8]; 2]
        ensures { map (λ piece. piece.now) result ≡ fault_pieces self }
    {
        [fault_opening(self), fault_place(self, digits)]
    }
}
