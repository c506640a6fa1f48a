//! Writing the opcodes of an action.
ghost use Rattle.std.specs.Prelude.{◌≡◌, ◌≤◌, ◌<◌, ◌++◌, OnOk, flat_map, take, drop};
ghost use Rattle.scott_types.specs.Opcode.{opcode_of, uses};
ghost use Rattle.adv_decompiler.specs.Layout.{text_of, braced};
ghost use Rattle.adv_decompiler.specs.Written.{says, numbered, name_piece, piece_of, pieces};
ghost use Rattle.adv_decompiler.specs.Lines.{opcode};

use crate::parameters::put_parameters;
use crate::references::put_message;
use crate::sizes::Sizes;
use adv_io::Memory;
use adv_text::put_integer;
use scott_types::Opcode;
use source_reader::opcode_word;
use std::alloc::Global;

// Writes an opcode that says a message.
#[tactic(auto, using(crate::proofs::Texts::layout))]
fn put_said(alloc: Global, out: &mut Vec<u8>, sizes: &Sizes, message: u32) -> Result<(), Memory>
    ensures { OnOk result
        (out.new.items ≡ out.old.items ++ text_of (opcode sizes.now (says message))) }
{
    out.extend_from_slice(b" say ")?;
    put_message(alloc, out, sizes, message)?;
    out.push(b';')?;
    Ok(())
}

// Writes an opcode by its number.
#[tactic(auto, using(crate::proofs::Texts::layout))]
fn put_numbered(alloc: Global, out: &mut Vec<u8>, sizes: &Sizes, number: u32) -> Result<(), Memory>
    ensures { OnOk result
        (out.new.items ≡ out.old.items ++ text_of (opcode sizes.now (numbered number))) }
{
    out.extend_from_slice(b" op ")?;
    put_integer(alloc, out, number)?;
    out.push(b';')?;
    Ok(())
}

// Writes an opcode by its name, with these parameters in brackets if there are any.
#[tactic(auto, using(crate::proofs::Texts::layout))]
fn put_named(
    alloc: Global,
    out: &mut Vec<u8>,
    sizes: &Sizes,
    number: u8,
    parameters: &[u32],
) -> Result<(), Memory>
    requires least { 52 ≤ number }
    requires most { number < 90 }
    ensures { OnOk result (out.new.items ≡ out.old.items
        ++ text_of (opcode sizes.now (name_piece number parameters.now))) }
{
    out.push(b' ')?;
    out.extend_from_slice(opcode_word(number))?;
    if let [_, ..] = parameters {
        out.push(b'(')?;
        let kinds = Opcode::of(u32::from(number)).parameters();
        put_parameters(alloc, out, sizes, kinds, parameters)?;
        out.push(b')')?;
    }
    out.push(b';')?;
    Ok(())
}

// Writes an opcode, with these parameters in brackets if it takes any.
#[tactic(auto, using(crate::proofs::Pieces::by_number))]
fn put_opcode(
    alloc: Global,
    out: &mut Vec<u8>,
    sizes: &Sizes,
    number: u32,
    parameters: &[u32],
) -> Result<(), Memory>
    ensures { OnOk result (out.new.items ≡ out.old.items
        ++ text_of (opcode sizes.now (piece_of number parameters.now (opcode_of number)))) }
{
    match number {
        0 | 90..=101 => put_numbered(alloc, out, sizes, number),
        1..=51 => put_said(alloc, out, sizes, number),
        52..=89 => put_named(alloc, out, sizes, number as u8, parameters),
        _ => put_said(alloc, out, sizes, number - 50),
    }
}

// The parameters that an opcode takes, of those that are left, and the others.
fn split<'a>(number: u32, parameters: &'a [u32]) -> (&'a [u32], &'a [u32])
    ensures taken { result.0.now ≡ take (uses (opcode_of number)) parameters.now }
    ensures left { result.1.now ≡ drop (uses (opcode_of number)) parameters.now }
{
    let uses = Opcode::of(number).uses();
    if uses < parameters.len() {
        (&parameters[..uses], &parameters[uses..])
    } else {
        (parameters, &[])
    }
}

// Writes opcodes, one after another, with the next of the parameters each.
#[tactic(auto, using(crate::proofs::Texts::layout, crate::proofs::Texts::steps))]
fn put_each(
    alloc: Global,
    out: &mut Vec<u8>,
    sizes: &Sizes,
    parameters: &[u32],
    numbers: &[u32],
) -> Result<(), Memory>
    ensures { OnOk result (out.new.items ≡ out.old.items
        ++ text_of (flat_map (opcode sizes.now) (pieces parameters.now numbers.now))) }
{
    let mut left = parameters;
    for number in numbers {
        let (taken, after) = split(*number, left);
        put_opcode(alloc, out, sizes, *number, taken)?;
        left = after;
    }
    Ok(())
}

/// Writes opcodes between braces, each with the next of the parameters.
#[tactic(auto, using(crate::proofs::Texts::layout))]
pub fn put_opcodes(
    alloc: Global,
    out: &mut Vec<u8>,
    sizes: &Sizes,
    parameters: &[u32],
    numbers: &[u32],
) -> Result<(), Memory>
    ensures { OnOk result (out.new.items ≡ out.old.items
        ++ text_of (braced (flat_map (opcode sizes.now) (pieces parameters.now numbers.now)))) }
{
    out.extend_from_slice(b" {")?;
    put_each(alloc, out, sizes, parameters, numbers)?;
    out.extend_from_slice(b" }")?;
    Ok(())
}
