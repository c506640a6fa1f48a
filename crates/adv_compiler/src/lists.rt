//! What a list of a source means.
ghost use Rattle.std.specs.Prelude.{ℕ, ◌≡◌, ◌≤◌, ◌+◌, Bool, Result, IfOk, IsTrue, [], length};
ghost use Rattle.std.specs.List.{list_all};
ghost use Rattle.source_reader.specs.declared.tree.At.{At};
ghost use Rattle.source_reader.specs.WellFormed.{all_of};
ghost use Rattle.adv_compiler.specs.Faults.{Fault, Gives, Meets};
ghost use Rattle.adv_compiler.specs.Known.{Known};
ghost use Rattle.adv_compiler.specs.Index.{known_in};
ghost use Rattle.adv_compiler.specs.Lists.{each, list_of};

use crate::faults::CompileFault;
use crate::tables::Tables;
use source_reader::{At, Entries};
use std::alloc::Global;

/// An entry of a list, which means a part of a database.
pub trait Entry<T: Drop>: Drop {
    // What the entry of this number means.
    ghost meaning: { Known → ℕ → At Self → Result T Fault };

    // What holds of each entry of a well formed source, and of the part that it means.
    ghost ready: { Self → Bool };

    ghost kept: { T → Bool };

    /// The part that an entry means.
    fn compile(
        alloc: Global,
        tables: &Tables,
        number: u16,
        entry: &At<Self>,
    ) -> Result<T, CompileFault>
        requires { IsTrue (ready entry.now.what) }
        ensures meant { Meets (meaning (known_in tables.now) number entry.now) result }
        ensures kept { IfOk result (λ part. IsTrue (kept part)) };
}

// The parts that the entries mean, of which there may be none.
fn each<T: Drop, E: Entry<T>>(
    alloc: Global,
    tables: &Tables,
    highest: u16,
    entries: &[At<E>],
) -> Result<Vec<T>, CompileFault>
    requires few { highest ≤ 9999 }
    requires ready { IsTrue (all_of E.ready entries.now) }
    ensures meant { Gives
        (λ v. v.items) (each (E.meaning (known_in tables.now)) highest [] entries.now) result }
    ensures kept { IfOk result (λ v. IsTrue (list_all E.kept v.items)) }
    ensures as_many { IfOk result (λ v. length v.items ≡ length entries.now) }
    ensures few { IfOk result (λ v. length v.items ≤ highest + 1) }
{
    let mut parts = Vec::new(alloc);
    let mut number = 0;
    for entry in entries {
        if number > highest {
            return Err(CompileFault::Limit(entry.at, i64::from(number)));
        }
        let part = E::compile(alloc, tables, number, entry)?;
        parts.push(part)?;
        number += 1;
    }
    Ok(parts)
}

/// The parts that a list means: one at least, and none with a number above the highest.
pub fn list_of<T: Drop, E: Entry<T>>(
    alloc: Global,
    tables: &Tables,
    highest: u16,
    list: &Entries<E>,
) -> Result<Vec<T>, CompileFault>
    requires few { highest ≤ 9999 }
    requires ready { IsTrue (all_of E.ready list.now.entries) }
    ensures meant { Gives
        (λ v. v.items) (list_of (E.meaning (known_in tables.now)) highest list.now) result }
    ensures kept { IfOk result (λ v. IsTrue (list_all E.kept v.items)) }
    ensures as_many { IfOk result (λ v. length v.items ≡ length list.now.entries) }
    ensures some { IfOk result (λ v. 1 ≤ length v.items) }
    ensures few { IfOk result (λ v. length v.items ≤ highest + 1) }
{
    let parts = each(alloc, tables, highest, list.entries.as_slice())?;
    if parts.is_empty() {
        return Err(CompileFault::Limit(list.end, -1));
    }
    Ok(parts)
}
