//! What is said of a fault: its number, if it has one, an opening and its place.
ghost use Rattle.std.specs.Prelude.{◌≡◌};

use crate::faults::CompileFault;
use itoa::Buffer;

impl CompileFault {
    ghost use Rattle.adv_compiler.specs.FaultTexts.{fault_number, fault_opening, fault_place};

    /// What stands first: a number that is out of its range, or nothing.
    pub fn number(self, digits: &mut Buffer) -> &[u8]
        ensures { result.now ≡ fault_number self }
    {
        match self {
            CompileFault::Limit(_, value) => digits.format(value).as_bytes(),
            _ => b"",
        }
    }

    /// What is wrong. Its place follows.
    #[tactic(auto, unfolding(crate::specs::FaultTexts::fault_opening))]
    pub fn opening<'a>(self) -> &'a [u8]
        ensures { result.now ≡ fault_opening self }
    {
        match self {
            CompileFault::Unnamed(_) => b"unknown name at ",
            CompileFault::Twice(_) => b"name given twice at ",
            CompileFault::TooManyConditions(_) => b"more than five conditions at ",
            CompileFault::TooManyOpcodes(_) => b"more than four opcodes at ",
            CompileFault::Limit(_, _) => b" is out of range at ",
            CompileFault::Memory => b"",
        }
    }

    /// Its place in the text.
    pub fn place(self, digits: &mut Buffer) -> &[u8]
        ensures { result.now ≡ fault_place self }
    {
        match self {
            CompileFault::Unnamed(at) => digits.format(at).as_bytes(),
            CompileFault::Twice(at) => digits.format(at).as_bytes(),
            CompileFault::TooManyConditions(at) => digits.format(at).as_bytes(),
            CompileFault::TooManyOpcodes(at) => digits.format(at).as_bytes(),
            CompileFault::Limit(at, _) => digits.format(at).as_bytes(),
            CompileFault::Memory => b"",
        }
    }
}
