//! Writing the parameters of an opcode.
ghost use Rattle.std.specs.Prelude.{◌≡◌, ◌++◌, OnOk};
ghost use Rattle.adv_decompiler.specs.Layout.{text_of, joined, listed, more_listed};
ghost use Rattle.adv_decompiler.specs.Lines.{parameter_tokens};

use crate::references::put_thing;
use crate::sizes::Sizes;
use adv_io::Memory;
use scott_types::Parameter;
use std::alloc::Global;

// Writes parameters, each after `, `.
#[tactic(auto, using(crate::proofs::Texts::layout))]
fn put_more(
    alloc: Global,
    out: &mut Vec<u8>,
    sizes: &Sizes,
    kinds: &[Parameter],
    parameters: &[u32],
) -> Result<(), Memory>
    ensures { OnOk result (out.new.items ≡ out.old.items
        ++ text_of (more_listed (parameter_tokens sizes.now kinds.now parameters.now))) }
{
    let [kind, kinds @ ..] = kinds else {
        return Ok(());
    };
    let [parameter, parameters @ ..] = parameters else {
        return Ok(());
    };
    out.extend_from_slice(b", ")?;
    put_thing(alloc, out, sizes, *kind, *parameter)?;
    put_more(alloc, out, sizes, kinds, parameters)
}

/// Writes parameters with `, ` between them.
#[tactic(auto, using(crate::proofs::Texts::layout))]
pub fn put_parameters(
    alloc: Global,
    out: &mut Vec<u8>,
    sizes: &Sizes,
    kinds: &[Parameter],
    parameters: &[u32],
) -> Result<(), Memory>
    ensures { OnOk result (out.new.items ≡ out.old.items
        ++ text_of (listed joined (parameter_tokens sizes.now kinds.now parameters.now))) }
{
    let [kind, kinds @ ..] = kinds else {
        return Ok(());
    };
    let [parameter, parameters @ ..] = parameters else {
        return Ok(());
    };
    put_thing(alloc, out, sizes, *kind, *parameter)?;
    put_more(alloc, out, sizes, kinds, parameters)
}
