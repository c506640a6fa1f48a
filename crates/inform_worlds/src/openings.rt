//! What globals and arrays begin with.
ghost use Rattle.std.specs.Prelude.{◌≡◌, [], pos, map, replicate, unwrap_or, IfOk};
ghost use Rattle.inform_tree.specs.Programs.{directive_of};
ghost use Rattle.inform_names.specs.Meanings.{constant_word, entry_count};
ghost use Rattle.inform_names.specs.Views.{directives_of, names_of};
ghost use Rattle.inform_meaning.specs.Programs.{global_in, array_in, entries_in};
ghost use Rattle.inform_meaning.specs.Worlds.{kept};
ghost use Rattle.inform_worlds.specs.Worlds.{first_globals, first_arrays};

use crate::entries::kept;
use adv_io::Memory;
use inform_names::Names;
use inform_tree::{Const, Directive};
use std::alloc::Global;

// The word of a constant; 0 where it has none.
fn word(names: &Names, constant: &Const) -> i32
    ensures { result ≡ unwrap_or (constant_word names.now.accepted.now.width
        (names_of names.now.accepted.now) constant.now) (pos 0) }
{
    names.word_if_any(constant).unwrap_or(0)
}

// The word with which a global begins; 0 for what is no global.
fn global(names: &Names, directive: &Directive) -> i32
    ensures { result ≡ unwrap_or (global_in names.now.accepted.now.width
        (names_of names.now.accepted.now) (directive_of directive.now)) (pos 0) }
{
    match directive {
        Directive::Global(_, Some(constant)) => word(names, constant),
        _ => 0,
    }
}

// How many entries an array of one constant has.
fn count(names: &Names, constant: &Const) -> usize
    ensures { result ≡ entry_count (constant_word names.now.accepted.now.width
        (names_of names.now.accepted.now) constant.now) }
{
    match names.word_if_any(constant) {
        Some(word) if word > 0 => word as usize,
        _ => 0,
    }
}

// The entries that are given one by one.
fn given(alloc: Global, names: &Names, words: bool, constants: &[Const]) -> Result<Vec<i32>, Memory>
    ensures { IfOk result (λ entries. entries.items ≡ map (λ x. kept words
        (unwrap_or (constant_word names.now.accepted.now.width
        (names_of names.now.accepted.now) x) (pos 0))) constants.now) }
{
    let mut entries = Vec::with_capacity(alloc, constants.len())?;
    for constant in constants {
        entries.push(kept(words, word(names, constant)))?;
    }
    Ok(entries)
}

// The entries of an array.
fn entries(
    alloc: Global,
    names: &Names,
    words: bool,
    constants: &[Const],
) -> Result<Vec<i32>, Memory>
    ensures { IfOk result (λ entries. entries.items ≡ entries_in names.now.accepted.now.width
        (names_of names.now.accepted.now) words constants.now) }
{
    match constants {
        [only] => Ok(vec![in alloc; 0; count(names, only)]?),
        _ => given(alloc, names, words, constants),
    }
}

// The entries with which an array begins; none for what is no array.
fn array(alloc: Global, names: &Names, directive: &Directive) -> Result<Vec<i32>, Memory>
    ensures { IfOk result (λ entries. entries.items ≡ unwrap_or
        (array_in names.now.accepted.now.width (names_of names.now.accepted.now)
        (directive_of directive.now)) []) }
{
    match directive {
        Directive::Array(_, words, constants) => entries(alloc, names, *words, constants),
        _ => Ok(Vec::new(alloc)),
    }
}

/// The words with which the globals begin, by the numbers of the directives.
pub fn first_globals(alloc: Global, names: &Names) -> Result<Vec<i32>, Memory>
    ensures { IfOk result (λ globals. globals.items ≡ first_globals names.now.accepted.now) }
{
    let directives = &names.accepted().program().directives;
    let mut globals = Vec::with_capacity(alloc, directives.len())?;
    for directive in directives {
        globals.push(global(names, directive))?;
    }
    Ok(globals)
}

/// The entries with which the arrays begin, by the numbers of the directives.
pub fn first_arrays(alloc: Global, names: &Names) -> Result<Vec<Vec<i32>>, Memory>
    ensures { IfOk result (λ arrays. map (λ entries. entries.items) arrays.items
        ≡ first_arrays names.now.accepted.now) }
{
    let directives = &names.accepted().program().directives;
    let mut arrays = Vec::with_capacity(alloc, directives.len())?;
    for directive in directives {
        arrays.push(array(alloc, names, directive)?)?;
    }
    Ok(arrays)
}
