//! What is said of a fault.
ghost use Rattle.std.specs.Prelude.{◌≡◌};
ghost use Rattle.translator.specs.FaultTexts.{place_opening, place_line, place_part, place_number, before_value, too_wide_ending};

use crate::faults::TransFault;
use itoa::Buffer;
use trans_specs::Place;

#[tactic(auto, unfolding(crate::specs::FaultTexts::place_opening))]
fn place_opening<'a>(place: Place) -> &'a [u8]
    ensures { result.now ≡ place_opening place }
{
    match place {
        Place::Carry => b"carry",
        Place::Treasures => b"treasures",
        Place::Light => b"light",
        Place::Home => b"treasure room",
        Place::Verb(_) => b"line ",
        Place::Condition(_, _) => b"line ",
        Place::Opcode(_, _) => b"line ",
    }
}

// The number of a line.
fn place_line(place: Place, digits: &mut Buffer) -> &[u8]
    ensures { result.now ≡ place_line place }
{
    match place {
        Place::Carry => b"",
        Place::Treasures => b"",
        Place::Light => b"",
        Place::Home => b"",
        Place::Verb(k) => digits.format(k).as_bytes(),
        Place::Condition(k, _) => digits.format(k).as_bytes(),
        Place::Opcode(k, _) => digits.format(k).as_bytes(),
    }
}

#[tactic(auto, unfolding(crate::specs::FaultTexts::place_part))]
fn place_part<'a>(place: Place) -> &'a [u8]
    ensures { result.now ≡ place_part place }
{
    match place {
        Place::Carry => b"",
        Place::Treasures => b"",
        Place::Light => b"",
        Place::Home => b"",
        Place::Verb(_) => b" verb",
        Place::Condition(_, _) => b" condition ",
        Place::Opcode(_, _) => b" opcode ",
    }
}

// The number of a condition or an opcode.
fn place_number(place: Place, digits: &mut Buffer) -> &[u8]
    ensures { result.now ≡ place_number place }
{
    match place {
        Place::Carry => b"",
        Place::Treasures => b"",
        Place::Light => b"",
        Place::Home => b"",
        Place::Verb(_) => b"",
        Place::Condition(_, j) => digits.format(j).as_bytes(),
        Place::Opcode(_, j) => digits.format(j).as_bytes(),
    }
}

#[tactic(auto, unfolding(crate::specs::FaultTexts::before_value))]
fn before_value<'a>() -> &'a [u8]
    ensures { result.now ≡ before_value }
{
    b" is "
}

#[tactic(auto, unfolding(crate::specs::FaultTexts::too_wide_ending))]
fn too_wide_ending<'a>() -> &'a [u8]
    ensures { result.now ≡ too_wide_ending }
{
    b", outside 16 bits"
}

impl TransFault {
    ghost use Rattle.translator.specs.FaultTexts.{fault_opening, fault_line, fault_part, fault_number, fault_before_value, fault_value, fault_ending};

    /// What is said of the fault first.
    pub fn opening<'a>(self) -> &'a [u8]
        ensures { result.now ≡ fault_opening self }
    {
        match self {
            TransFault::Wide(place, _) => place_opening(place),
            TransFault::Memory => b"",
        }
    }

    /// Then the number of its line, which is written into `digits`.
    pub fn line(self, digits: &mut Buffer) -> &[u8]
        ensures { result.now ≡ fault_line self }
    {
        match self {
            TransFault::Wide(place, _) => place_line(place, digits),
            TransFault::Memory => b"",
        }
    }

    /// Then what of the line.
    pub fn part<'a>(self) -> &'a [u8]
        ensures { result.now ≡ fault_part self }
    {
        match self {
            TransFault::Wide(place, _) => place_part(place),
            TransFault::Memory => b"",
        }
    }

    /// Then the number of the condition or the opcode, which is written into `digits`.
    pub fn number(self, digits: &mut Buffer) -> &[u8]
        ensures { result.now ≡ fault_number self }
    {
        match self {
            TransFault::Wide(place, _) => place_number(place, digits),
            TransFault::Memory => b"",
        }
    }

    /// Then what stands before the number that is too wide.
    pub fn before_value<'a>(self) -> &'a [u8]
        ensures { result.now ≡ fault_before_value self }
    {
        match self {
            TransFault::Wide(_, _) => before_value(),
            TransFault::Memory => b"",
        }
    }

    /// Then that number, which is written into `digits`.
    pub fn value(self, digits: &mut Buffer) -> &[u8]
        ensures { result.now ≡ fault_value self }
    {
        match self {
            TransFault::Wide(_, value) => digits.format(value).as_bytes(),
            TransFault::Memory => b"",
        }
    }

    /// And what is said last.
    pub fn ending<'a>(self) -> &'a [u8]
        ensures { result.now ≡ fault_ending self }
    {
        match self {
            TransFault::Wide(_, _) => too_wide_ending(),
            TransFault::Memory => b"",
        }
    }
}
