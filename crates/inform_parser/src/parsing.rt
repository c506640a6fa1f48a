//! The program that tokens are.
ghost use Rattle.std.specs.Prelude.{◌≡◌, ◌⊎◌, List, IfOk, IfErr};
ghost use Rattle.inform_tree.specs.Programs.{DirectiveTree, program_of};
ghost use Rattle.inform_lexer.specs.declared.kinds.Token.{Token};
ghost use Rattle.inform_lexer.specs.Tokens.{Spelled};
ghost use Rattle.inform_parser.specs.Programs.{IsProgramOf, IsGiven, IsReadTo, IsFaultOf, place_before, fault_at, fault_answer};
ghost use Rattle.inform_parser.specs.declared.faults.ParseFault.TheVariants.{Memory};
ghost use Rattle.inform_grammar.specs.Faults.{Fault};
ghost use Rattle.adv_io.specs.Answers.{IsErrOr};

use crate::cursor::Cursor;
use crate::faults::ParseFault;
use crate::stops::Stop;
use inform_grammar::laws::{fault_is_first, read_is_sentence, sentence_is_read};
use inform_lexer::{Token, tokens};
use inform_tree::Program;
use std::alloc::Global;

// The place where so many of the tokens are left.
fn place_before(bytes: &[u8], tokens: &[Token], left: usize) -> usize
    ensures { result ≡ place_before bytes.now tokens.now left }
{
    match &tokens[tokens.len().saturating_sub(left)..] {
        [token, ..] => token.start as usize,
        [] => bytes.len(),
    }
}

// The fault that a stop is at a place.
fn fault_at(stop: Stop, at: usize) -> ParseFault
    ensures { result ≡ fault_at stop at }
{
    match stop {
        Stop::Unexpected => ParseFault::Unexpected(at),
        Stop::Mixed => ParseFault::Mixed(at),
        Stop::TooDeep => ParseFault::TooDeep(at),
        Stop::Memory => ParseFault::Memory,
    }
}

// The fault that a stop is, where so many of the tokens are left.
//
// A clause of the parser sees what tokens say, and not where they stand. So they are read from the
// text once more.
#[cold]
#[inline(never)]
fn fault_before(alloc: Global, bytes: &[u8], stop: Stop, left: usize) -> ParseFault
    ensures { (tokens : List Token) → Spelled bytes.now tokens
        → (result ≡ fault_at stop (place_before bytes.now tokens left)) ⊎ (result ≡ Memory) }
{
    if matches!(stop, Stop::Memory) {
        return ParseFault::Memory;
    }
    match tokens(alloc, bytes) {
        Ok(again) => fault_at(stop, place_before(bytes, &again, left)),
        Err(_) => ParseFault::Memory,
    }
}

/// The program that these tokens are, which are those of these bytes.
///
/// The faults are those of `ParseFault`; the first one in the order of the text is answered.
/// docs/INFORM.md has the rules ("Grammar", "What the parser refuses"). The tokens are taken over,
/// and their memory is given back as they are read. So where there is a fault the text is read a
/// second time, to find its place.
pub fn parse(alloc: Global, tokens: Vec<Token>, bytes: &[u8]) -> Result<Program, ParseFault>
    requires { Spelled bytes.now tokens.items }

    // What is given is the program of a sentence, and that of each sentence is given, unless memory
    // runs out.
    ensures found { IfOk result (λ given. IsProgramOf bytes.now tokens.items (program_of given)) }
    ensures only { (p : List DirectiveTree) → IsProgramOf bytes.now tokens.items p
        → IsGiven result p }

    // A fault but `Memory` is answered only where it is the first one, and there, unless memory
    // runs out.
    ensures fault { IfErr result (λ fault. IsFaultOf bytes.now tokens.items fault) }
    ensures expected { (fault : Fault) → IsReadTo bytes.now tokens.items fault
        → IsErrOr Memory result (fault_answer bytes.now tokens.items fault) }
{
    sentence_is_read();
    read_is_sentence();
    fault_is_first();
    let mut cursor = Cursor::new(bytes, tokens);
    match cursor.program(alloc) {
        Ok(program) => Ok(program),
        Err(stop) => Err(fault_before(alloc, bytes, stop, cursor.left())),
    }
}
