//! What is said of a fault.
ghost use Rattle.std.specs.Prelude.{◌≡◌, map};
ghost use Rattle.scott_format.specs.FaultTexts.{field_opening, fault_opening, fault_number, fault_closing, fault_pieces};

use crate::faults::{Field, FormatFault};
use itoa::Buffer;

#[tactic(auto, unfolding(crate::specs::FaultTexts::field_opening))]
fn field_opening<'a>(field: Field) -> &'a [u8]
    ensures { result.now ≡ field_opening field }
{
    match field {
        Field::HighestItem => b"highest item is ",
        Field::HighestAction => b"highest action is ",
        Field::HighestWord => b"highest word is ",
        Field::HighestRoom => b"highest room is ",
        Field::WordLength => b"word length is ",
        Field::LightTime => b"light time is ",
        Field::HighestMessage => b"highest message is ",
    }
}

#[tactic(auto, unfolding(crate::specs::FaultTexts::fault_opening))]
fn fault_opening<'a>(fault: FormatFault) -> &'a [u8]
    ensures { result.now ≡ fault_opening fault }
{
    match fault {
        FormatFault::NoNumber(_) => b"no number at ",
        FormatFault::BigNumber(_) => b"number too large at ",
        FormatFault::NoQuote(_) => b"no quote at ",
        FormatFault::OpenString(_) => b"string not closed at ",
        FormatFault::LongString(_) => b"string too long at ",
        FormatFault::Limit(field, _) => field_opening(field),
        FormatFault::NoStart(_) => b"start room ",
        FormatFault::NegativeAction(_) => b"action ",
        FormatFault::Memory => b"",
    }
}

fn fault_number(fault: FormatFault, digits: &mut Buffer) -> &[u8]
    ensures { result.now ≡ fault_number fault }
{
    match fault {
        FormatFault::NoNumber(at)
        | FormatFault::BigNumber(at)
        | FormatFault::NoQuote(at)
        | FormatFault::OpenString(at)
        | FormatFault::LongString(at) => digits.format(at).as_bytes(),
        FormatFault::Limit(_, value) => digits.format(value).as_bytes(),
        FormatFault::NoStart(value) => digits.format(value).as_bytes(),
        FormatFault::NegativeAction(k) => digits.format(k).as_bytes(),
        FormatFault::Memory => b"",
    }
}

#[tactic(auto, unfolding(crate::specs::FaultTexts::fault_closing))]
fn fault_closing<'a>(fault: FormatFault) -> &'a [u8]
    ensures { result.now ≡ fault_closing fault }
{
    match fault {
        FormatFault::NoStart(_) => b" is not there",
        FormatFault::NegativeAction(_) => b" has a negative number",
        _ => b"",
    }
}

impl FormatFault {
    ghost use Rattle.scott_format.specs.FaultTexts.{fault_pieces};

    /// The pieces of what is said of the fault. Its number is written into `digits`.
    pub fn pieces<'a>(self, digits: &'a mut Buffer) -> [&'a [u8]; 3]
        ensures { map (λ piece. piece.now) result ≡ fault_pieces self }
    {
        [
            fault_opening(self),
            fault_number(self, digits),
            fault_closing(self),
        ]
    }
}
