//! Texts of pieces.
ghost use Rattle.std.specs.Prelude.{◌≡◌, IfOk, flat_map};

use adv_io::Memory;
use scott_types::Text;
use std::alloc::Global;

/// The text of these pieces, one after the other.
pub fn text(alloc: Global, pieces: &[&[u8]]) -> Result<Text, Memory>
    ensures { IfOk result (λ text. text ≡ flat_map (λ piece. piece.now) pieces.now) }
{
    let bytes = pieces.concat(alloc)?;
    Ok(Text::of(bytes))
}
