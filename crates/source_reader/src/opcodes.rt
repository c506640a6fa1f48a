//! The opcodes of a line.
ghost use Rattle.source_reader.specs.Plan.{Follows};
ghost use Rattle.source_reader.specs.Entries.{one_parameter, two_parameters, parameters, named_opcode, message_said, opcode_numbered, opcode};

use crate::entries::next_reference;
use crate::faults::SourceFault;
use crate::lists::Piece;
use crate::names::opcode_number;
use crate::sequences::Seq;
use crate::singles::{any_token, is_mark, number, reference, symbol};
use crate::tokens::Token;
use crate::tree::{At, Op};
use adv_text::Scan;
use scott_types::Opcode;
use std::alloc::Global;

// Reads the parameter of an opcode that takes one, after its bracket.
#[tactic(auto, using(crate::proofs::Plans::sections), unfolding(crate::specs::Entries::one_parameter))]
fn one_parameter(alloc: Global, scan: &mut Scan, number: u8) -> Result<Op, SourceFault>
    ensures { Follows (one_parameter number) scan.old result scan.new }
{
    let parameter = reference(alloc, scan)?;
    symbol(alloc, scan, b')')?;
    symbol(alloc, scan, b';')?;
    let mut parameters = Vec::with_capacity(alloc, 1)?;
    parameters.push_reserved(parameter);
    Ok(Op::With(number, Seq::of(parameters)))
}

// Reads the parameters of an opcode that takes two, after its bracket.
#[tactic(auto, using(crate::proofs::Plans::sections), unfolding(crate::specs::Entries::two_parameters))]
fn two_parameters(alloc: Global, scan: &mut Scan, number: u8) -> Result<Op, SourceFault>
    ensures { Follows (two_parameters number) scan.old result scan.new }
{
    let first = reference(alloc, scan)?;
    let second = next_reference(alloc, scan)?;
    symbol(alloc, scan, b')')?;
    symbol(alloc, scan, b';')?;
    let mut parameters = Vec::with_capacity(alloc, 2)?;
    parameters.push_reserved(first);
    parameters.push_reserved(second);
    Ok(Op::With(number, Seq::of(parameters)))
}

// Reads the parameters of an opcode, after the bracket at this place.
fn parameters(alloc: Global, scan: &mut Scan, number: u8, at: usize) -> Result<Op, SourceFault>
    ensures { Follows (parameters number at) scan.old result scan.new }
{
    match Opcode::of(u32::from(number)).uses() {
        1 => one_parameter(alloc, scan, number),
        2 => two_parameters(alloc, scan, number),
        _ => Err(SourceFault::Unexpected(at)),
    }
}

// Reads what follows the word of an opcode.
#[tactic(auto, using(crate::proofs::Plans::sections), unfolding(crate::specs::Entries::named_opcode))]
fn named_opcode(alloc: Global, scan: &mut Scan, number: u8) -> Result<Op, SourceFault>
    ensures { Follows (named_opcode number) scan.old result scan.new }
{
    let At { at, what } = any_token(alloc, scan)?;
    if is_mark(b';', &what) {
        return Ok(Op::Named(number));
    }
    if !is_mark(b'(', &what) {
        return Err(SourceFault::Unexpected(at));
    }
    parameters(alloc, scan, number, at)
}

// Reads an opcode that says a message.
#[tactic(auto, using(crate::proofs::Plans::sections), unfolding(crate::specs::Entries::message_said))]
fn message_said(alloc: Global, scan: &mut Scan) -> Result<Op, SourceFault>
    ensures { Follows message_said scan.old result scan.new }
{
    let message = reference(alloc, scan)?;
    symbol(alloc, scan, b';')?;
    Ok(Op::Say(message))
}

// Reads an opcode by its number.
#[tactic(auto, using(crate::proofs::Plans::sections), unfolding(crate::specs::Entries::opcode_numbered))]
fn opcode_numbered(alloc: Global, scan: &mut Scan) -> Result<Op, SourceFault>
    ensures { Follows opcode_numbered scan.old result scan.new }
{
    let number = number(alloc, scan)?;
    symbol(alloc, scan, b';')?;
    Ok(Op::Number(number))
}

impl Piece for Op {
    ghost plan = { opcode };

    fn read(alloc: Global, scan: &mut Scan, at: usize, first: Token) -> Result<Op, SourceFault> {
        let Token::Word(word) = first else {
            return Err(SourceFault::Unexpected(at));
        };
        if word.as_slice() == b"say".as_slice() {
            return message_said(alloc, scan);
        }
        if word.as_slice() == b"op".as_slice() {
            return opcode_numbered(alloc, scan);
        }
        let Some(number) = opcode_number(word.as_slice()) else {
            return Err(SourceFault::Unexpected(at));
        };
        named_opcode(alloc, scan, number)
    }
}
