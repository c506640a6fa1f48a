//! The opcodes of a line, packed in two pairs.
ghost use Rattle.std.specs.Prelude.{IfOk};
ghost use Rattle.adv_compiler.specs.Faults.{Meets};

use crate::faults::CompileFault;
use crate::values::{first_of_two, second_of_two};

/// Up to four opcodes in two packed pairs, each 150 times its first opcode and its second.
#[derive(Clone, Copy)]
pub struct Pairs {
    pub first: u32,
    pub second: u32,
    /// How many opcodes there are.
    pub count: u8,
}

impl Pairs {
    ghost use Rattle.adv_compiler.specs.Lines.{AreFew, with_opcode};

    /// These opcodes and one more. `written` is the number that a fault has.
    #[tactic(auto, using(crate::proofs::Binds::stands_then))]
    pub fn with_opcode(self, at: usize, written: i32, number: u32) -> Result<Pairs, CompileFault>
        requires { AreFew self }
        ensures meant { Meets (with_opcode at written self number) result }
        ensures few { IfOk result AreFew }
    {
        match self.count {
            0 => {
                let first = first_of_two(at, written, number)?;
                Ok(Pairs {
                    first,
                    second: self.second,
                    count: 1,
                })
            }
            1 => {
                let first = second_of_two(at, written, self.first, number)?;
                Ok(Pairs {
                    first,
                    second: self.second,
                    count: 2,
                })
            }
            2 => {
                let second = first_of_two(at, written, number)?;
                Ok(Pairs {
                    first: self.first,
                    second,
                    count: 3,
                })
            }
            _ => {
                let second = second_of_two(at, written, self.second, number)?;
                Ok(Pairs {
                    first: self.first,
                    second,
                    count: 4,
                })
            }
        }
    }
}
