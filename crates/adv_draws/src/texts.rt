//! What is said of a text that is no list of draws.
ghost use Rattle.std.specs.Prelude.{◌≡◌, map};
ghost use Rattle.adv_draws.specs.Texts.{fault_opening, fault_number, fault_pieces};

use crate::faults::DrawFault;
use itoa::Buffer;

#[tactic(auto, unfolding(crate::specs::Texts::fault_opening))]
fn fault_opening<'a>(fault: DrawFault) -> &'a [u8]
    ensures { result.now ≡ fault_opening fault }
{
    match fault {
        DrawFault::NotADraw(_) => b"not a draw at ",
        DrawFault::Memory => b"",
    }
}

fn fault_number(fault: DrawFault, digits: &mut Buffer) -> &[u8]
    ensures { result.now ≡ fault_number fault }
{
    match fault {
        DrawFault::NotADraw(at) => digits.format(at).as_bytes(),
        DrawFault::Memory => b"",
    }
}

impl DrawFault {
    ghost use Rattle.adv_draws.specs.Texts.{fault_pieces};

    /// The pieces of what is said of the fault. Its place is written into `digits`.
    pub fn pieces<'a>(self, digits: &'a mut Buffer) -> [&'a [u8]; 2]
        ensures { map (λ piece. piece.now) result ≡ fault_pieces self }
    {
        [fault_opening(self), fault_number(self, digits)]
    }
}
