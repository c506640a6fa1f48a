//! Writing the conditions of an action.
ghost use Rattle.std.specs.Prelude.{◌≡◌, ◌++◌, OnOk, flat_map};
ghost use Rattle.adv_decompiler.specs.Layout.{text_of, braced};
ghost use Rattle.adv_decompiler.specs.Lines.{condition};

use crate::references::put_thing;
use crate::sizes::Sizes;
use adv_io::Memory;
use scott_types::Condition;
use scott_types::action_lines::{argument_of, condition_code};
use source_reader::condition_word;
use std::alloc::Global;

// Writes a condition, packed as in the file.
#[tactic(auto, using(crate::proofs::Texts::layout))]
fn put_condition(alloc: Global, out: &mut Vec<u8>, sizes: &Sizes, packed: u32) -> Result<(), Memory>
    ensures { OnOk result
        (out.new.items ≡ out.old.items ++ text_of (condition sizes.now packed)) }
{
    let code = condition_code(packed);
    out.push(b' ')?;
    out.extend_from_slice(condition_word(code))?;
    out.push(b' ')?;
    put_thing(
        alloc,
        out,
        sizes,
        Condition::of(code).names(),
        argument_of(packed),
    )?;
    out.push(b';')?;
    Ok(())
}

// Writes conditions, one after another.
#[tactic(auto, using(crate::proofs::Texts::layout))]
fn put_each(alloc: Global, out: &mut Vec<u8>, sizes: &Sizes, conds: &[u32]) -> Result<(), Memory>
    ensures { OnOk result (out.new.items ≡ out.old.items
        ++ text_of (flat_map (condition sizes.now) conds.now)) }
{
    for packed in conds {
        put_condition(alloc, out, sizes, *packed)?;
    }
    Ok(())
}

/// Writes conditions between braces.
#[tactic(auto, using(crate::proofs::Texts::layout))]
pub fn put_conditions(
    alloc: Global,
    out: &mut Vec<u8>,
    sizes: &Sizes,
    conds: &[u32],
) -> Result<(), Memory>
    ensures { OnOk result (out.new.items ≡ out.old.items
        ++ text_of (braced (flat_map (condition sizes.now) conds.now))) }
{
    out.extend_from_slice(b" {")?;
    put_each(alloc, out, sizes, conds)?;
    out.extend_from_slice(b" }")?;
    Ok(())
}
