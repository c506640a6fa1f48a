//! The numbers of a source: what names stand for, and the ranges.
ghost use Rattle.std.specs.Prelude.{◌≤◌, ◌<◌, ◌≤ℤ◌, pos, IfOk, IsTrue, unsigned_abs};
ghost use Rattle.scott_types.specs.Limits.{is_number};
ghost use Rattle.adv_compiler.specs.Faults.{Meets};
ghost use Rattle.adv_compiler.specs.Index.{found_in, known_in};
ghost use Rattle.adv_compiler.specs.Values.{value_of, vocab_of, thing, in_range, natural, entry_number, first_of_two, second_of_two, packed_condition};

use crate::faults::CompileFault;
use crate::names::Names;
use crate::tables::Tables;
use source_reader::{Ref, Vocab};

// The greatest packed number.
const MOST: u64 = 2147483647;

/// A number of 32 bits is a number of a database: its type says so, and the proof learns it here.
pub fn number_fits(_number: i32)
    ensures { IsTrue (is_number _number) }
{}

/// A number, or what a name at this place stands for.
pub fn value_of(names: &Names, at: usize, what: &Ref) -> Result<i32, CompileFault>
    ensures { Meets (value_of (found_in names.now) at what.now) result }
{
    match what {
        Ref::Number(number) => Ok(*number),
        Ref::Name(name) => match names.find(name.bytes()) {
            Some(number) => Ok(number),
            None => Err(CompileFault::Unnamed(at)),
        },
    }
}

/// A number, or what an item's name or else a room's stands for.
pub fn thing_of(tables: &Tables, at: usize, what: &Ref) -> Result<i32, CompileFault>
    ensures { Meets (value_of (thing (known_in tables.now)) at what.now) result }
{
    match what {
        Ref::Number(number) => Ok(*number),
        Ref::Name(name) => match tables.items.find(name.bytes()) {
            Some(number) => Ok(number),
            None => value_of(&tables.rooms, at, what),
        },
    }
}

/// A number, or the least entry of the vocabulary with this text.
pub fn vocab_of(names: &Names, at: usize, what: &Vocab) -> Result<i32, CompileFault>
    ensures { Meets (vocab_of (found_in names.now) at what.now) result }
{
    match what {
        Vocab::Number(number) => Ok(*number),
        Vocab::Exact(text) => match names.find(text.bytes()) {
            Some(number) => Ok(number),
            None => Err(CompileFault::Unnamed(at)),
        },
    }
}

/// A number within least..most.
pub fn in_range(at: usize, least: i32, most: i32, number: i32) -> Result<i32, CompileFault>
    ensures meant { Meets (in_range at least most number) result }
    ensures kept { IfOk result (λ z. (least ≤ℤ z) × (z ≤ℤ most)) }
{
    if least <= number && number <= most {
        Ok(number)
    } else {
        Err(CompileFault::Limit(at, i64::from(number)))
    }
}

/// A number that isn't negative.
pub fn natural(at: usize, number: i32) -> Result<u32, CompileFault>
    ensures { Meets (natural at number) result }
{
    if 0 <= number {
        Ok(number as u32)
    } else {
        Err(CompileFault::Limit(at, i64::from(number)))
    }
}

/// The number of one of so many entries.
pub fn entry_number(at: usize, count: usize, number: i32) -> Result<i32, CompileFault>
    ensures meant { Meets (entry_number at count number) result }
    ensures kept { IfOk result (λ z. (pos 0 ≤ℤ z) × (unsigned_abs z < count)) }
{
    if 0 <= number && (number as usize) < count {
        Ok(number)
    } else {
        Err(CompileFault::Limit(at, i64::from(number)))
    }
}

/// 150 times the first of two numbers. `written` is the number that a fault has.
pub fn first_of_two(at: usize, written: i32, number: u32) -> Result<u32, CompileFault>
    ensures meant { Meets (first_of_two at written number) result }
    ensures few { IfOk result (λ packed. packed ≤ 2147483647) }
{
    let packed = 150 * u64::from(number);
    if packed <= MOST {
        Ok(packed as u32)
    } else {
        Err(CompileFault::Limit(at, i64::from(written)))
    }
}

/// The packed first of two numbers, and the second, which is at most 149.
pub fn second_of_two(at: usize, written: i32, first: u32, number: u32) -> Result<u32, CompileFault>
    ensures meant { Meets (second_of_two at written first number) result }
    ensures few { IfOk result (λ packed. packed ≤ 2147483647) }
{
    let packed = u64::from(first) + u64::from(number);
    if number <= 149 && packed <= MOST {
        Ok(packed as u32)
    } else {
        Err(CompileFault::Limit(at, i64::from(written)))
    }
}

/// 20 times an argument, and a condition's code.
#[tactic(auto, using(crate::proofs::Binds::stands_then))]
pub fn packed_condition(at: usize, code: u8, argument: i32) -> Result<u32, CompileFault>
    ensures meant { Meets (packed_condition at code argument) result }
    ensures few { IfOk result (λ packed. packed ≤ 2147483647) }
{
    let number = natural(at, argument)?;
    let packed = 20 * u64::from(number) + u64::from(code);
    if packed <= MOST {
        Ok(packed as u32)
    } else {
        Err(CompileFault::Limit(at, i64::from(argument)))
    }
}
