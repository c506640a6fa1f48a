//! The warnings of places one after the other.
ghost use Rattle.std.specs.Prelude.{◌≡◌, ◌≤◌, ◌++◌, [], ◌∷◌, OnOk, length};
ghost use Rattle.adv_check.specs.Sites.{Site, part_sites, warnings_of};

use crate::findings::{Fault, Part, Warning};
use adv_io::Memory;
use std::alloc::Global;

/// Adds the warning of a place at the end, where something is wrong there.
pub fn add(
    _alloc: Global,
    found: &mut Vec<Warning>,
    part: Part,
    index: u16,
    place: u8,
    fault: Option<Fault>,
) -> Result<(), Memory>
    ensures { OnOk result (found.new.items ≡ found.old.items
        ++ warnings_of (record { part = part; index = index; place = place; fault = fault } ∷ [])) }
{
    if let Some(Fault { what, value }) = fault {
        found.push(Warning {
            part,
            index,
            place,
            what,
            value,
        })?;
    }
    Ok(())
}

/// Adds the warnings of one part of an entry at the end: the faults are those at its places, from 1
/// on.
pub fn add_part(
    alloc: Global,
    found: &mut Vec<Warning>,
    part: Part,
    index: u16,
    faults: &[Option<Fault>],
) -> Result<(), Memory>
    requires { length faults.now ≤ 6 }
    ensures { OnOk result (found.new.items ≡ found.old.items
        ++ warnings_of (part_sites part index faults.now)) }
{
    for (i, fault) in faults.iter().enumerate() {
        add(alloc, found, part, index, (i + 1) as u8, *fault)?;
    }
    Ok(())
}
