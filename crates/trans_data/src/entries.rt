//! Globals and arrays with what they hold.
ghost use Rattle.std.specs.Prelude.{◌≡◌, ◌++◌, [], ◌∷◌, IfOk, pos, map};
ghost use Rattle.inform_tree.specs.Programs.{directive_of};
ghost use Rattle.inform_tree.specs.declared.values.Const.TheVariants as k;
ghost use Rattle.trans_specs.specs.Tables.{guarded};
ghost use Rattle.trans_specs.specs.Directives.{written as the_written, global as the_global, integers as the_integers, words as the_words, bytes as the_bytes, zero_bytes as the_zero_bytes};

use adv_io::Memory;
use inform_tree::{Const, Directive, Name};
use std::alloc::Global;

// A whole number as it is written.
fn written(number: i32) -> Const
    ensures { result ≡ the_written number }
{
    if number < 0 {
        Const::Minus(number.unsigned_abs())
    } else {
        Const::Number(number as u32)
    }
}

fn name_of(alloc: Global, name: &[u8]) -> Result<Name, Memory>
    ensures { IfOk result (λ kept. kept ≡ name.now) }
{
    Ok(Name::of(Vec::from_slice(alloc, name)?))
}

/// A global with its first value.
pub fn global(alloc: Global, name: &[u8], value: i32) -> Result<Directive, Memory>
    ensures { IfOk result (λ directive. directive_of directive ≡ the_global name.now value) }
{
    Ok(Directive::Global(name_of(alloc, name)?, Some(written(value))))
}

fn number_entries(alloc: Global, numbers: &[u32]) -> Result<Vec<Const>, Memory>
    ensures { IfOk result (λ entries. entries.items ≡ map k.Number numbers.now) }
{
    let mut entries = Vec::with_capacity(alloc, numbers.len())?;
    for number in numbers {
        entries.push(Const::Number(*number))?;
    }
    Ok(entries)
}

fn written_entries(alloc: Global, numbers: &[i16]) -> Result<Vec<Const>, Memory>
    ensures { IfOk result (λ entries. entries.items ≡ map the_written numbers.now) }
{
    let mut entries = Vec::with_capacity(alloc, numbers.len())?;
    for number in numbers {
        entries.push(written(*number as i32))?;
    }
    Ok(entries)
}

/// An array of words that hold these numbers.
pub fn words(alloc: Global, name: &[u8], numbers: &[u32]) -> Result<Directive, Memory>
    ensures { IfOk result (λ directive. directive_of directive
        ≡ the_words name.now numbers.now) }
{
    Ok(Directive::Array(name_of(alloc, name)?, true, number_entries(alloc, numbers)?))
}

/// An array of words that hold these numbers, some of which may be negative.
pub fn integers(alloc: Global, name: &[u8], numbers: &[i16]) -> Result<Directive, Memory>
    ensures { IfOk result (λ directive. directive_of directive
        ≡ the_integers name.now numbers.now) }
{
    Ok(Directive::Array(
        name_of(alloc, name)?,
        true,
        written_entries(alloc, numbers)?,
    ))
}

/// An array of bytes that hold these numbers.
pub fn bytes(alloc: Global, name: &[u8], numbers: &[u32]) -> Result<Directive, Memory>
    ensures { IfOk result (λ directive. directive_of directive
        ≡ the_bytes name.now numbers.now) }
{
    Ok(Directive::Array(
        name_of(alloc, name)?,
        false,
        number_entries(alloc, numbers)?,
    ))
}

/// An array of so many bytes, each 0.
pub fn zero_bytes(alloc: Global, name: &[u8], size: u32) -> Result<Directive, Memory>
    ensures { IfOk result (λ directive. directive_of directive
        ≡ the_zero_bytes name.now size) }
{
    let length = vec![in alloc; Const::Number(size)]?;
    Ok(Directive::Array(name_of(alloc, name)?, false, length))
}

/// A list of contents, with the guard entry after it.
pub fn with_guard(numbers: Vec<u32>) -> Result<Vec<u32>, Memory>
    ensures { IfOk result (λ all. all.items ≡ guarded numbers.items) }
{
    let mut all = numbers;
    all.push(0)?;
    Ok(all)
}
