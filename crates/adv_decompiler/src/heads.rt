//! Writing the heads of actions.
ghost use Rattle.std.specs.Prelude.{◌≡◌, ◌++◌, OnOk};
ghost use Rattle.adv_decompiler.specs.Layout.{text_of};
ghost use Rattle.adv_decompiler.specs.Lines.{head};

use adv_io::Memory;
use adv_text::put_integer;
use scott_types::action_lines::{noun_of, verb_of};
use std::alloc::Global;

/// Writes the head of a vocabulary.
#[tactic(auto, using(crate::proofs::Texts::layout))]
pub fn put_head(alloc: Global, out: &mut Vec<u8>, vocab: u32) -> Result<(), Memory>
    ensures { OnOk result (out.new.items ≡ out.old.items ++ text_of (head vocab)) }
{
    if vocab == 0 {
        out.extend_from_slice(b"\nalso")?;
        return Ok(());
    }
    if verb_of(vocab) == 0 {
        out.extend_from_slice(b"\nauto ")?;
        return put_integer(alloc, out, noun_of(vocab));
    }
    out.extend_from_slice(b"\nline ")?;
    put_integer(alloc, out, verb_of(vocab))?;
    out.push(b' ')?;
    put_integer(alloc, out, noun_of(vocab))
}
