//! The printed text of a whole program.
ghost use Rattle.std.specs.Prelude.{◌≡◌, IsTrue, IfOk};
ghost use Rattle.inform_tree.specs.Programs.{program_of};
ghost use Rattle.inform_tree.specs.Formed.{is_well_formed};
ghost use Rattle.inform_texts.specs.Texts.{ProgramText};
ghost use Rattle.inform_printer.specs.Printing.{printed};

use crate::directives::put_directive;
use crate::laws::printed_reads_back;
use adv_io::Memory;
use inform_tree::Program;
use std::alloc::Global;

// Prints the directives, one after the other.
#[tactic(auto, unfolding(crate::specs::Printing::printed, inform_lexer::specs::Written::text_of))]
fn put_program(alloc: Global, program: &Program) -> Result<Vec<u8>, Memory>
    ensures { IfOk result (λ text. text.items ≡ printed (program_of program.now)) }
{
    let mut out = Vec::new(alloc);
    for directive in &program.directives {
        put_directive(&mut out, directive)?;
    }
    Ok(out)
}

/// The printed text of a well-formed program. It reads back as that program.
///
/// docs/INFORM.md says how each part is printed ("Printed text"). Only want of memory is a fault.
pub fn print(alloc: Global, program: &Program) -> Result<Vec<u8>, Memory>
    // `Program::well_formed` tells whether a program is.
    requires { IsTrue (is_well_formed (program_of program.now)) }
    // Exactly the lexemes of the program, each with the byte after it.
    ensures printed { IfOk result (λ text. text.items ≡ printed (program_of program.now)) }
    ensures reads_back { IfOk result (λ text. ProgramText text.items (program_of program.now)) }
{
    printed_reads_back();
    put_program(alloc, program)
}
