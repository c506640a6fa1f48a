//! Texts of a source as texts of a database.
ghost use Rattle.std.specs.Prelude.{Ok};
ghost use Rattle.adv_compiler.specs.Faults.{Meets};

use crate::faults::CompileFault;
use scott_types::Text;
use std::alloc::Global;

/// A copy of a text.
pub fn text_of(alloc: Global, text: &Text) -> Result<Text, CompileFault>
    ensures { Meets (Ok text.now) result }
{
    let copied = Vec::from_slice(alloc, text.bytes())?;
    Ok(Text::of(copied))
}
