//! What is wrong with one number of a database.
ghost use Rattle.std.specs.Prelude.{◌≡◌, ◌||◌, ◌==◌, pos};
ghost use Rattle.scott_types.specs.State.{is_room_of};
ghost use Rattle.adv_check.specs.Faults.{unless, naming_fault, condition_fault, parameters_fault, is_unused, meant_fault, opcode_fault, exit_fault};

use crate::findings::{Fault, What};
use scott_types::action_lines::{argument_of, condition_code};
use scott_types::places::CARRIED;
use scott_types::{Condition, Db, Opcode, Parameter};

// How many flags there are.
const FLAGS: u32 = 32;

// How many backup counters there are, and how many backup rooms.
const BACKUPS: u32 = 16;

fn unless(there: bool, what: What, value: i64) -> Option<Fault>
    ensures { result ≡ unless there what value }
{
    if there {
        None
    } else {
        Some(Fault { what, value })
    }
}

fn is_room(db: &Db, number: u32) -> bool
    ensures { result ≡ is_room_of db.now number }
{
    (number as usize) < db.rooms().len()
}

/// What is wrong with a number that names something of a kind.
pub fn naming_fault(db: &Db, kind: Parameter, number: u32) -> Option<Fault>
    ensures { result ≡ naming_fault db.now kind number }
{
    let value = i64::from(number);
    match kind {
        Parameter::Item => unless((number as usize) < db.items().len(), What::Item, value),
        Parameter::Room => unless(is_room(db, number), What::Room, value),
        Parameter::Flag => unless(number < FLAGS, What::Flag, value),
        Parameter::Backup => unless(number < BACKUPS, What::Backup, value),
        Parameter::Place => {
            let there = is_room(db, number) || number == u32::from(CARRIED);
            unless(there, What::Room, value)
        }
        Parameter::Number => None,
    }
}

/// What is wrong with a condition, packed as in the file.
pub fn condition_fault(db: &Db, packed: u32) -> Option<Fault>
    ensures { result ≡ condition_fault db.now packed }
{
    let condition = Condition::of(condition_code(packed));
    naming_fault(db, condition.names(), argument_of(packed))
}

// What is wrong with the first parameter of an opcode that has a fault, of those that are left.
fn parameters_fault(db: &Db, kinds: &[Parameter], left: &[u32]) -> Option<Fault>
    ensures { result ≡ parameters_fault db.now kinds.now left.now }
{
    match kinds {
        [] => None,
        [kind, others @ ..] => match left {
            [] => Some(Fault {
                what: What::NoParameter,
                value: 0,
            }),
            [number, rest @ ..] => {
                naming_fault(db, *kind, *number).or(parameters_fault(db, others, rest))
            }
        },
    }
}

fn is_unused(number: u32) -> bool
    ensures { result ≡ is_unused number }
{
    matches!(number, 90..=101)
}

// What is wrong with an opcode that has a number.
fn meant_fault(db: &Db, opcode: Opcode, left: &[u32]) -> Option<Fault>
    ensures { result ≡ meant_fault db.now opcode left.now }
{
    match opcode {
        Opcode::Say(message) => {
            let there = (message as usize) < db.messages().len();
            unless(there, What::Message, i64::from(message))
        }
        _ => parameters_fault(db, opcode.parameters(), left),
    }
}

/// What is wrong with the opcode of a number, which takes its parameters from those that are left.
pub fn opcode_fault(db: &Db, number: u32, left: &[u32]) -> Option<Fault>
    ensures { result ≡ opcode_fault db.now number left.now }
{
    if is_unused(number) {
        Some(Fault {
            what: What::Unused,
            value: i64::from(number),
        })
    } else {
        meant_fault(db, Opcode::of(number), left)
    }
}

/// What is wrong with an exit.
pub fn exit_fault(db: &Db, exit: i32) -> Option<Fault>
    ensures { result ≡ exit_fault db.now exit }
{
    if 0 <= exit {
        naming_fault(db, Parameter::Room, exit as u32)
    } else {
        Some(Fault {
            what: What::Room,
            value: i64::from(exit),
        })
    }
}
