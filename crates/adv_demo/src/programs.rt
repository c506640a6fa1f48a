//! The translation of a game, and the program of its text.
ghost use Rattle.std.specs.Prelude.{◌≡◌, None, Ok, IfOk, IsOk};
ghost use Rattle.inform_names.specs.Views.{directives_of};
ghost use Rattle.inform_reader.specs.Reading.{program_in};
ghost use Rattle.inform_tree.specs.declared.widths.Width.TheVariants.{W16};
ghost use Rattle.scott_types.specs.Style.{plain_style};
ghost use Rattle.trans_specs.specs.Wide.{wide_at};
ghost use Rattle.translator.specs.Faithful.{Faithful};

use adv_io::Memory;
use inform_names::Accepted;
use inform_reader::{ProgramFault, read_program};
use inform_tree::Width;
use scott_types::{Db, Style};
use std::alloc::Global;
use translator::{TransFault, translate};

/// The text of a program of words of 16 bits that is faithful to a game, of which no number is too
/// wide for them.
pub fn translation(alloc: Global, db: &Db) -> Result<Vec<u8>, Memory>
    requires { wide_at W16 db.now ≡ None }
    ensures { IfOk result (λ text. Faithful plain_style W16 db.now None text.items) }
{
    match translate(alloc, db, Style::plain(), Width::W16, None) {
        Ok(text) => Ok(text),
        Err(TransFault::Memory) => Err(Memory),
        Err(TransFault::Wide(_, _)) => unreachable!(),
    }
}

/// The program of a text that is one of an accepted program of words of 16 bits.
pub fn program_of(alloc: Global, text: &[u8]) -> Result<Accepted, Memory>
    requires { IsOk (program_in W16 text.now) }
    ensures width { IfOk result (λ accepted. accepted.width ≡ W16) }
    ensures found { IfOk result (λ accepted. program_in W16 text.now
        ≡ Ok (directives_of accepted)) }
{
    match read_program(alloc, text, Width::W16) {
        Ok(accepted) => Ok(accepted),
        Err(ProgramFault::Memory) => Err(Memory),
        Err(ProgramFault::NoTokens(_)) => unreachable!(),
        Err(ProgramFault::NoSentence(_)) => unreachable!(),
        Err(ProgramFault::NotAccepted(_)) => unreachable!(),
    }
}
