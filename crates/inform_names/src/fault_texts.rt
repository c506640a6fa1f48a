//! What is said of a fault.
ghost use Rattle.std.specs.Prelude.{◌≡◌, map};

use crate::faults::NameFault;
use itoa::Buffer;

impl NameFault {
    ghost use Rattle.inform_names.specs.FaultTexts.{fault_opening, fault_subject, fault_ending, fault_pieces};

    #[tactic(auto, unfolding(crate::specs::FaultTexts::fault_opening))]
    fn opening<'a>(&self) -> &'a [u8]
        ensures { result.now ≡ fault_opening self.now }
    {
        match self {
            NameFault::WideNumber(_) => b"number ",
            NameFault::MainLocals => b"main has locals",
            NameFault::NoMain => b"main is missing",
            NameFault::Twice(_) => b"",
            NameFault::Missing(_) => b"",
            NameFault::Kind(_) => b"",
            NameFault::TooManyLocals(_) => b"",
            NameFault::TooManyArguments(_) => b"",
            NameFault::Size(_) => b"",
            NameFault::Outside(_) => b"",
            NameFault::TooDeep(_) => b"",
            NameFault::Memory => b"",
        }
    }

    fn subject<'a>(&'a self, digits: &'a mut Buffer) -> &'a [u8]
        ensures { result.now ≡ fault_subject self.now }
    {
        match self {
            NameFault::Twice(name) => name.bytes(),
            NameFault::Missing(name) => name.bytes(),
            NameFault::Kind(name) => name.bytes(),
            NameFault::TooManyLocals(name) => name.bytes(),
            NameFault::TooManyArguments(name) => name.bytes(),
            NameFault::WideNumber(number) => digits.format(*number).as_bytes(),
            NameFault::Size(name) => name.bytes(),
            NameFault::Outside(name) => name.bytes(),
            NameFault::TooDeep(name) => name.bytes(),
            NameFault::MainLocals => b"",
            NameFault::NoMain => b"",
            NameFault::Memory => b"",
        }
    }

    #[tactic(auto, unfolding(crate::specs::FaultTexts::fault_ending))]
    fn ending<'a>(&self) -> &'a [u8]
        ensures { result.now ≡ fault_ending self.now }
    {
        match self {
            NameFault::Twice(_) => b" is defined twice",
            NameFault::Missing(_) => b" is not defined",
            NameFault::Kind(_) => b" is of another kind",
            NameFault::TooManyLocals(_) => b" has too many locals",
            NameFault::TooManyArguments(_) => b" has too many arguments",
            NameFault::WideNumber(_) => b" is too wide",
            NameFault::Size(_) => b" has a wrong size",
            NameFault::Outside(_) => b" leaves no loop",
            NameFault::TooDeep(_) => b" is nested too deeply",
            NameFault::MainLocals => b"",
            NameFault::NoMain => b"",
            NameFault::Memory => b"",
        }
    }

    /// The pieces of what is said of the fault. A number is written into `digits`. Want of memory
    /// has no text: its pieces are empty.
    pub fn pieces<'a>(&'a self, digits: &'a mut Buffer) -> [&'a [u8]; 3]
        ensures { map (λ piece. piece.now) result ≡ fault_pieces self.now }
    {
        [self.opening(), self.subject(digits), self.ending()]
    }
}
