//! Reading a text.
ghost use Rattle.std.specs.Prelude.{◌≡◌, Ok, IfOk, IfErr};
ghost use Rattle.inform_tree.specs.declared.widths.Width.{Width};
ghost use Rattle.inform_tree.specs.Programs.{program_of};
ghost use Rattle.inform_lexer.specs.Tokens.{Spelled};
ghost use Rattle.inform_names.specs.Views.{directives_of};
ghost use Rattle.inform_texts.specs.Reading as text;
ghost use Rattle.inform_reader.specs.Reading.{accepted_of, program_in};
ghost use Rattle.inform_reader.specs.Views.{Tells};

use crate::faults::ProgramFault;
use inform_lexer::{LexFault, Token, tokens};
use inform_names::{Accepted, NameFault, accept};
use inform_parser::{ParseFault, parse};
use inform_texts::laws::{fault_in, program_in};
use inform_tree::{Program, Width};
use std::alloc::Global;
use std::mem::forget;

/// The most bytes of an Inform source.
pub const PROGRAM_LIMIT: usize = 33_554_432;

// The tokens of a text.
#[tactic(auto, using(crate::proofs::Answers::tokens_told))]
fn read_tokens(alloc: Global, bytes: &[u8]) -> Result<Vec<Token>, ProgramFault>
    ensures found { IfOk result (λ found. Spelled bytes.now found.items) }
    ensures fault { (width : Width) → IfErr result (λ f. Tells f (program_in width bytes.now)) }
{
    fault_in();
    match tokens(alloc, bytes) {
        Ok(found) => Ok(found),
        Err(LexFault::Memory) => Err(ProgramFault::Memory),
        Err(fault) => Err(ProgramFault::NoTokens(fault)),
    }
}

// The program of tokens.
#[tactic(auto, using(crate::proofs::Answers::program_told))]
fn read_tree(alloc: Global, found: Vec<Token>, bytes: &[u8]) -> Result<Program, ProgramFault>
    requires { Spelled bytes.now found.items }
    ensures found { IfOk result (λ p. text.program_in bytes.now ≡ Ok (program_of p)) }
    ensures fault { (width : Width) → IfErr result (λ f. Tells f (program_in width bytes.now)) }
{
    program_in();
    fault_in();
    match parse(alloc, found, bytes) {
        Ok(program) => Ok(program),
        Err(fault) => match fault {
            ParseFault::Memory => Err(ProgramFault::Memory),
            fault => Err(ProgramFault::NoSentence(fault)),
        },
    }
}

// The program of a text, whether it is accepted or not.
fn read_text(alloc: Global, bytes: &[u8]) -> Result<Program, ProgramFault>
    ensures found { IfOk result (λ p. text.program_in bytes.now ≡ Ok (program_of p)) }
    ensures fault { (width : Width) → IfErr result (λ f. Tells f (program_in width bytes.now)) }
{
    let found = read_tokens(alloc, bytes)?;
    read_tree(alloc, found, bytes)
}

// The program, if it is accepted.
#[tactic(auto, using(crate::proofs::Answers::names_told, crate::proofs::Answers::accepted_is))]
fn accepted(alloc: Global, program: Program, width: Width) -> Result<Accepted, ProgramFault>
    ensures width { IfOk result (λ a. a.width ≡ width) }
    ensures found { IfOk result (λ a. accepted_of width (Ok (program_of program))
        ≡ Ok (directives_of a)) }
    ensures fault { IfErr result (λ f. Tells f (accepted_of width (Ok (program_of program)))) }
{
    match accept(alloc, program, width) {
        Ok(accepted) => Ok(accepted),
        Err((refused, fault)) => {
            // The system takes the tree's memory back at once when the program ends.
            forget(refused);
            match fault {
                NameFault::Memory => Err(ProgramFault::Memory),
                fault => Err(ProgramFault::NotAccepted(fault)),
            }
        }
    }
}

/// Reads an Inform source, where words have this width.
///
/// The first fault of the text is answered: of its tokens, or else of its grammar, or else of its
/// names. docs/INFORM.md has the rules.
#[tactic(auto, using(crate::proofs::Answers::read_is))]
pub fn read_program(alloc: Global, bytes: &[u8], width: Width) -> Result<Accepted, ProgramFault>
    ensures width { IfOk result (λ accepted. accepted.width ≡ width) }
    ensures found { IfOk result (λ accepted. program_in width bytes.now
        ≡ Ok (directives_of accepted)) }
    ensures fault { IfErr result (λ f. Tells f (program_in width bytes.now)) }
{
    let program = read_text(alloc, bytes)?;
    accepted(alloc, program, width)
}
