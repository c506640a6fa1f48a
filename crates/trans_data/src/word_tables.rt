//! The tables of the vocabulary: the letters of words, and base entries.
ghost use Rattle.std.specs.Prelude.{◌≡◌, ◌+◌, ◌^◌, ◌≤◌, ◌<◌, ◌++◌, IfOk, map, flat_map, length, replicate, if◌then◌else◌, Some};
ghost use Rattle.std.specs.List.{list_all};
ghost use Rattle.std.specs.Char.{is_ascii_graphic};
ghost use Rattle.scott_types.specs.ItemText.{is_starred};
ghost use Rattle.scott_rules.specs.Words.{column_of, entries_of};
ghost use Rattle.trans_specs.specs.Tables.{entry_letters, bases_from, bases as the_bases};

use adv_io::Memory;
use scott_types::{Column, Db, Word, starts_with_star};
use scott_vocab::{entry_text, letters, spelling};
use std::alloc::Global;

// Whether a word can be typed.
fn is_printed(word: &[u8]) -> bool
    ensures { result ≡ list_all is_ascii_graphic word.now }
{
    word.iter().all(|byte| byte.is_ascii_graphic())
}

// Zeros after other numbers.
#[tactic(auto, using(crate::proofs::Zeros::one_more))]
fn with_zeros(numbers: Vec<u32>, count: usize) -> Result<Vec<u32>, Memory>
    ensures { IfOk result (λ all. all.items ≡ numbers.items ++ replicate count 0) }
{
    let mut all = numbers;
    for _ in 0..count {
        all.push(0)?;
    }
    Ok(all)
}

// Letters after other numbers.
fn with_letters(numbers: Vec<u32>, word: &[u8]) -> Result<Vec<u32>, Memory>
    ensures { IfOk result (λ all. all.items ≡ numbers.items ++ word.now) }
{
    let mut all = numbers;
    for letter in word {
        all.push(*letter as u32)?;
    }
    Ok(all)
}

// The letters of an entry after other numbers, as many as count.
fn with_entry(numbers: Vec<u32>, size: usize, entry: &[u8]) -> Result<Vec<u32>, Memory>
    requires { size ≤ 20 }
    ensures { IfOk result (λ all. all.items ≡ numbers.items ++ entry_letters size entry.now) }
{
    let word = letters(size, spelling(entry));
    if is_printed(word.as_slice()) {
        let missing = size.saturating_sub(word.len());
        with_zeros(with_letters(numbers, word.as_slice())?, missing)
    } else {
        with_zeros(numbers, size)
    }
}

/// The letters of the entries of a column.
pub fn word_letters(alloc: Global, db: &Db, column: Column) -> Result<Vec<u32>, Memory>
    ensures { IfOk result (λ numbers. numbers.items
        ≡ flat_map (entry_letters db.now.header.length) (entries_of db.now column)) }
{
    let parts = db.parts();
    let words = parts.words.as_slice();
    let mut numbers = Vec::new(alloc);
    for word in words {
        let entry = entry_text(word, column);
        numbers = with_entry(numbers, parts.header.length as usize, entry)?;
    }
    Ok(numbers)
}

// The base entry at an entry, where `base` is the nearest one before it.
fn nearest(base: Option<u32>, k: u32, entry: &[u8]) -> Option<u32>
    ensures { result ≡ (if is_starred entry.now then base else Some k) }
{
    if starts_with_star(entry) {
        base
    } else {
        Some(k)
    }
}

// The base entries of those from entry k on, after other numbers.
fn with_bases(
    numbers: Vec<u32>,
    column: Column,
    base: Option<u32>,
    k: u32,
    words: &[Word],
) -> Result<Vec<u32>, Memory>
    requires { k + length words.now < 2 ^ 32 }
    ensures { IfOk result (λ all. all.items
        ≡ numbers.items ++ bases_from base k (map (column_of column) words.now)) }
{
    match words {
        [] => Ok(numbers),
        [word, rest @ ..] => {
            let base = nearest(base, k, entry_text(word, column));
            let mut all = numbers;
            all.push(base.unwrap_or(0))?;
            with_bases(all, column, base, k + 1, rest)
        }
    }
}

/// The base entry of each entry, or 0; entry 0 has none.
pub fn bases(alloc: Global, db: &Db, column: Column) -> Result<Vec<u32>, Memory>
    ensures { IfOk result (λ numbers. numbers.items ≡ the_bases (entries_of db.now column)) }
{
    match db.words() {
        [] => Ok(Vec::new(alloc)),
        [_, rest @ ..] => with_bases(vec![in alloc; 0]?, column, None, 1, rest),
    }
}
