//! Names with a number, as `msg_12`.
ghost use Rattle.std.specs.Prelude.{◌≡◌, ◌++◌, IfOk, decimal};

use adv_io::Memory;
use itoa::Buffer;
use std::alloc::Global;

/// A name that begins so and ends in a number.
pub fn numbered(alloc: Global, prefix: &[u8], number: usize) -> Result<Vec<u8>, Memory>
    ensures { IfOk result (λ name. name.items ≡ prefix.now ++ decimal number) }
{
    let mut digits = Buffer::new();
    let mut name = Vec::from_slice(alloc, prefix)?;
    name.extend_from_slice(digits.format(number).as_bytes())?;
    Ok(name)
}
