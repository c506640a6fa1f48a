//! Writing numbers and strings.
ghost use Rattle.std.specs.Prelude.{◌≡◌, ◌++◌, OnOk, OnErr, IsTrue};
ghost use Rattle.adv_io.specs.Text.{is_text};
ghost use Rattle.adv_text.specs.Writing.{number_text, quoted_text};

use adv_io::Memory;
use itoa::{Buffer, Integer};
use std::alloc::Global;

/// Writes an integer of any type at the end: its decimal digits without leading zeros, after `-`
/// where it is negative.
///
/// After a fault nothing was written.
pub fn put_integer<I: Integer>(_alloc: Global, out: &mut Vec<u8>, n: I) -> Result<(), Memory>
    ensures written { OnOk result (out.new.items ≡ out.old.items ++ I.text n) }
    ensures kept { OnErr result (out.new.items ≡ out.old.items) }
{
    let mut buffer = Buffer::new();
    out.extend_from_slice(buffer.format(n).as_bytes())?;
    Ok(())
}

/// Writes a number of a database file at the end, as `put_integer` does.
///
/// After a fault nothing was written. docs/FORMAT.md has the rule.
pub fn put_number(alloc: Global, out: &mut Vec<u8>, n: i32) -> Result<(), Memory>
    ensures written { OnOk result (out.new.items ≡ out.old.items ++ number_text n) }
    ensures kept { OnErr result (out.new.items ≡ out.old.items) }
{
    put_integer(alloc, out, n)
}

/// Writes a string at the end: the text between quotes, each quote in it twice.
///
/// The text has at most 4,096 bytes, and neither a return nor a grave accent, which no string can
/// give. After a fault nothing was written. docs/FORMAT.md has the rule.
pub fn put_quoted(_alloc: Global, out: &mut Vec<u8>, text: &[u8]) -> Result<(), Memory>
    requires { IsTrue (is_text text.now) }
    ensures written { OnOk result (out.new.items ≡ out.old.items ++ quoted_text text.now) }
    ensures kept { OnErr result (out.new.items ≡ out.old.items) }
{
    out.reserve(2 * text.len() + 2)?;
    out.push_reserved(b'"');
    for byte in text {
        if *byte == b'"' {
            out.push_reserved(b'"');
        }
        out.push_reserved(*byte);
    }
    out.push_reserved(b'"');
    Ok(())
}
