//! Writing lists: a line for each entry.
ghost use Rattle.std.specs.Prelude.{ℕ, ◌≡◌, ◌≤◌, ◌++◌, Bool, List, OnOk, IsTrue, length};
ghost use Rattle.std.specs.List.{list_all};
ghost use Rattle.adv_text.specs.Writing.{quoted_text};
ghost use Rattle.scott_types.specs.Limits.{is_file_text};
ghost use Rattle.adv_decompiler.specs.declared.sizes.Sizes.{Sizes};
ghost use Rattle.adv_decompiler.specs.Layout.{Chunk, text_of, below, section};
ghost use Rattle.adv_decompiler.specs.Plain.{lines_of};

use crate::sizes::Sizes;
use adv_io::Memory;
use adv_text::put_quoted;
use scott_types::Text;
use std::alloc::Global;

/// Writes a text between quotes.
pub fn put_text(alloc: Global, out: &mut Vec<u8>, text: &Text) -> Result<(), Memory>
    requires { IsTrue (is_file_text text.now) }
    ensures { OnOk result (out.new.items ≡ out.old.items ++ quoted_text text.now) }
{
    put_quoted(alloc, out, text.bytes())
}

/// What has a line of its own in a list.
pub trait Line {
    // The line of the entry of this number.
    ghost line: { Sizes → ℕ → Self → List Chunk };

    // Whether the entry is within the limits.
    ghost fits: { Self → Bool };

    /// Writes the line of the entry of this number.
    fn put(
        &self,
        alloc: Global,
        out: &mut Vec<u8>,
        sizes: &Sizes,
        number: u32,
    ) -> Result<(), Memory>
        requires { IsTrue (fits self.now) }
        ensures { OnOk result
            (out.new.items ≡ out.old.items ++ text_of (line sizes.now number self.now)) };
}

// Writes the lines of entries.
#[tactic(auto, using(crate::proofs::Texts::layout, crate::proofs::Texts::steps))]
fn put_lines<L: Line>(
    alloc: Global,
    out: &mut Vec<u8>,
    sizes: &Sizes,
    entries: &[L],
) -> Result<(), Memory>
    requires fits { IsTrue (list_all L.fits entries.now) }
    requires few { length entries.now ≤ 5000 }
    ensures { OnOk result (out.new.items ≡ out.old.items
        ++ text_of (lines_of (L.line sizes.now) entries.now)) }
{
    let mut number = 0;
    for entry in entries {
        entry.put(alloc, out, sizes, number)?;
        number += 1;
    }
    Ok(())
}

/// Writes a list under its word.
#[tactic(auto, using(crate::proofs::Texts::layout))]
pub fn put_list<L: Line>(
    alloc: Global,
    out: &mut Vec<u8>,
    sizes: &Sizes,
    name: &[u8],
    entries: &[L],
) -> Result<(), Memory>
    requires fits { IsTrue (list_all L.fits entries.now) }
    requires few { length entries.now ≤ 5000 }
    ensures { OnOk result (out.new.items ≡ out.old.items
        ++ text_of (section below name.now (lines_of (L.line sizes.now) entries.now))) }
{
    out.push(b'\n')?;
    out.extend_from_slice(name)?;
    out.extend_from_slice(b" {")?;
    put_lines(alloc, out, sizes, entries)?;
    out.extend_from_slice(b"\n}")?;
    Ok(())
}
