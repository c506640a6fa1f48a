//! The warnings of each entry of the lists.
ghost use Rattle.std.specs.Prelude.{◌≡◌, ◌≤◌, ◌++◌, ℕ, List, OnOk, length, map, drop};
ghost use Rattle.scott_types.specs.Database.{Database};
ghost use Rattle.scott_types.specs.Opcode.{opcode_of, uses};
ghost use Rattle.scott_types.specs.Action.{opcode_numbers, parameters};
ghost use Rattle.adv_check.specs.Faults.{condition_fault, opcode_faults, exit_fault};
ghost use Rattle.adv_check.specs.Sites.{Site, action_sites, room_sites, item_sites, each_from, warnings_of};

use crate::adding::{add, add_part};
use crate::faults::{condition_fault, exit_fault, naming_fault, opcode_fault};
use crate::findings::{Fault, Part, Warning};
use adv_io::Memory;
use arrayvec::ArrayVec;
use scott_types::action_lines::{opcode_numbers, parameters};
use scott_types::{Action, Db, Item, Opcode, Parameter, Room};
use std::alloc::Global;

/// An entry of a list in which something can be wrong.
pub trait Warned {
    // The places of the entry of a number.
    ghost sites: { Database → ℕ → Self → List Site };

    /// Adds the warnings of the entry of a number at the end.
    fn add_warnings(
        &self,
        alloc: Global,
        db: &Db,
        index: u16,
        found: &mut Vec<Warning>,
    ) -> Result<(), Memory>
        ensures { OnOk result (found.new.items ≡ found.old.items
            ++ warnings_of (sites db.now index self.now)) };
}

// The parameters after those that the opcode of a number takes.
fn rest(number: u32, left: &[u32]) -> &[u32]
    ensures { result.now ≡ drop (uses (opcode_of number)) left.now }
{
    let taken = Opcode::of(number).uses();
    &left[taken.min(left.len())..]
}

// What is wrong with each of a line's conditions.
fn condition_faults(db: &Db, action: &Action) -> [Option<Fault>; 5]
    ensures { result ≡ map (condition_fault db.now) action.now.conds }
{
    action.conds.map(|packed| condition_fault(db, packed))
}

// What is wrong with each of a line's opcodes.
fn opcode_faults(db: &Db, action: &Action) -> [Option<Fault>; 4]
    ensures { result ≡ opcode_faults db.now (opcode_numbers action.now) (parameters action.now) }
{
    let [first, second, third, fourth] = opcode_numbers(action);
    let parameters = parameters(action);
    let all = parameters.as_slice();
    let after_first = rest(first, all);
    let after_second = rest(second, after_first);
    let after_third = rest(third, after_second);
    [
        opcode_fault(db, first, all),
        opcode_fault(db, second, after_first),
        opcode_fault(db, third, after_second),
        opcode_fault(db, fourth, after_third),
    ]
}

// What is wrong with each of a room's exits.
fn exit_faults(db: &Db, exits: &[i32]) -> ArrayVec<Option<Fault>, 6>
    requires { length exits.now ≤ 6 }
    ensures faults { result.items ≡ map (exit_fault db.now) exits.now }
    ensures few { length result.items ≤ 6 }
{
    let mut faults = ArrayVec::new();
    for exit in exits {
        faults.push(exit_fault(db, *exit));
    }
    faults
}

impl Warned for Action {
    ghost sites = { action_sites };

    fn add_warnings(
        &self,
        alloc: Global,
        db: &Db,
        index: u16,
        found: &mut Vec<Warning>,
    ) -> Result<(), Memory> {
        add_part(
            alloc,
            found,
            Part::Condition,
            index,
            &condition_faults(db, self),
        )?;
        add_part(alloc, found, Part::Opcode, index, &opcode_faults(db, self))?;
        Ok(())
    }
}

impl Warned for Room {
    ghost sites = { room_sites };

    fn add_warnings(
        &self,
        alloc: Global,
        db: &Db,
        index: u16,
        found: &mut Vec<Warning>,
    ) -> Result<(), Memory> {
        add_part(
            alloc,
            found,
            Part::Exit,
            index,
            exit_faults(db, &self.exits).as_slice(),
        )
    }
}

impl Warned for Item {
    ghost sites = { item_sites };

    fn add_warnings(
        &self,
        alloc: Global,
        db: &Db,
        index: u16,
        found: &mut Vec<Warning>,
    ) -> Result<(), Memory> {
        let fault = naming_fault(db, Parameter::Place, u32::from(self.place));
        add(alloc, found, Part::Place, index, 0, fault)
    }
}

/// Adds the warnings of each entry of a list at the end.
pub fn add_entries<E: Warned>(
    alloc: Global,
    db: &Db,
    entries: &[E],
    found: &mut Vec<Warning>,
) -> Result<(), Memory>
    requires { length entries.now ≤ 5000 }
    ensures { OnOk result (found.new.items ≡ found.old.items
        ++ warnings_of (each_from 0 (E.sites db.now) entries.now)) }
{
    for (index, entry) in entries.iter().enumerate() {
        entry.add_warnings(alloc, db, index as u16, found)?;
    }
    Ok(())
}
