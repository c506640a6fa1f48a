//! What is said of a fault.
ghost use Rattle.std.specs.Prelude.{◌≡◌, map};
ghost use Rattle.inform_lexer.specs.FaultTexts.{fault_opening, fault_place};

use crate::faults::LexFault;
use itoa::Buffer;

#[tactic(auto, unfolding(crate::specs::FaultTexts::fault_opening))]
fn fault_opening<'a>(fault: LexFault) -> &'a [u8]
    ensures { result.now ≡ fault_opening fault }
{
    match fault {
        LexFault::BadByte(_) => b"bad byte at ",
        LexFault::BigNumber(_) => b"number too large at ",
        LexFault::LongName(_) => b"name too long at ",
        LexFault::BadCharacter(_) => b"bad character at ",
        LexFault::BadString(_) => b"bad string at ",
        LexFault::OpenString(_) => b"string not closed at ",
        LexFault::Memory => b"",
    }
}

fn fault_place(fault: LexFault, digits: &mut Buffer) -> &[u8]
    ensures { result.now ≡ fault_place fault }
{
    match fault {
        LexFault::BadByte(at) => digits.format(at).as_bytes(),
        LexFault::BigNumber(at) => digits.format(at).as_bytes(),
        LexFault::LongName(at) => digits.format(at).as_bytes(),
        LexFault::BadCharacter(at) => digits.format(at).as_bytes(),
        LexFault::BadString(at) => digits.format(at).as_bytes(),
        LexFault::OpenString(at) => digits.format(at).as_bytes(),
        LexFault::Memory => b"",
    }
}

impl LexFault {
    ghost use Rattle.inform_lexer.specs.FaultTexts.{fault_pieces};

    /// The pieces of what is said of the fault. Its place is written into `digits`.
    pub fn pieces<'a>(self, digits: &'a mut Buffer) -> [&'a [u8]; 2]
        ensures { map (λ piece. piece.now) result ≡ fault_pieces self }
    {
        [fault_opening(self), fault_place(self, digits)]
    }
}
