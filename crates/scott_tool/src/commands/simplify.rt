//! `simplify G H`: an Inform program that is simpler than another one is stored.
ghost use Rattle.std.specs.Prelude.{◌≡◌, true, IfOk};
ghost use Rattle.inform_tree.specs.Formed.{is_well_formed};
ghost use Rattle.inform_names.specs.Views.{directives_of};
ghost use Rattle.scott_requests.specs.Request.{simplify};
ghost use Rattle.scott_requests.specs.Views.{asked_simplification};
ghost use Rattle.scott_tool.specs.Simplify.{SimplerText};
ghost use Rattle.scott_tool.specs.Plan.{work};
ghost use Rattle.scott_tool.specs.Views.{texts_in};
ghost use Rattle.scott_tool.specs.Obeying.{MakesFile};

use crate::contents::program;
use crate::loads::Texts;
use crate::refusals::Refusal;
use adv_io::Memory;
use inform_names::Accepted;
use inform_printer::print;
use inform_reader::laws::{program_in, programs_are_well_formed};
use inform_simplify::simplify;
use scott_requests::SimplifyRequest;
use std::alloc::Global;
use std::mem::forget;

// The text of a program that is simpler than this one.
fn simplified(alloc: Global, old: Accepted) -> Result<Vec<u8>, Memory>
    requires { is_well_formed (directives_of old) ≡ true }
    ensures { IfOk result (λ text. SimplerText old.width (directives_of old) text.items) }
{
    let new = simplify(alloc, old)?;
    let text = print(alloc, new.program());
    // The system takes the program's memory back at once when it ends.
    forget(new);
    text
}

/// The text of a program that is simpler than that of a file. It is stored under the second name.
pub fn simpler_text<'a>(
    alloc: Global,
    asked: SimplifyRequest<'a>,
    texts: &Texts,
) -> Result<Vec<u8>, Refusal<'a>>
    ensures { MakesFile asked.entry.simpler.now result
        (work (simplify (asked_simplification asked.entry)) (texts_in texts.now)) }
{
    program_in();
    programs_are_well_formed();
    let accepted = program(alloc, asked.program, asked.width, &texts.main)?;
    match simplified(alloc, accepted) {
        Ok(text) => Ok(text),
        Err(_) => Err(Refusal::Memory),
    }
}
