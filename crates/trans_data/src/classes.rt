//! Classes of nouns that can't be told apart as they are typed.
ghost use Rattle.std.specs.Prelude.{◌≡◌, ◌++◌, IfOk, map};
ghost use Rattle.scott_rules.specs.Words.{column_of, entries_of};
ghost use Rattle.scott_types.specs.declared.commands.Column.TheVariants.{Nouns};
ghost use Rattle.trans_specs.specs.Tables.{class_of_noun as the_noun_class, classes as the_classes};

use crate::nouns::{IndexedNouns, is_class};
use adv_io::Memory;
use scott_types::Word;
use std::alloc::Global;

fn class_of_noun(nouns: &IndexedNouns, noun: &[u8]) -> u32
    ensures { result ≡ the_noun_class nouns.now noun.now }
{
    if is_class(noun) {
        nouns.class_of(noun)
    } else {
        0
    }
}

// The classes of the nouns of these words, after other numbers.
fn with_classes(numbers: Vec<u32>, nouns: &IndexedNouns, words: &[Word]) -> Result<Vec<u32>, Memory>
    ensures { IfOk result (λ all. all.items ≡ numbers.items
        ++ map (the_noun_class nouns.now) (map (column_of Nouns) words.now)) }
{
    let mut all = numbers;
    for word in words {
        all.push(class_of_noun(nouns, word.noun.bytes()))?;
    }
    Ok(all)
}

/// The class of each noun; noun 0 has none.
pub fn classes(alloc: Global, nouns: &IndexedNouns) -> Result<Vec<u32>, Memory>
    ensures { IfOk result (λ numbers. numbers.items
        ≡ the_classes nouns.now (entries_of nouns.now Nouns)) }
{
    match nouns.db().words() {
        [] => Ok(Vec::new(alloc)),
        [_, rest @ ..] => with_classes(vec![in alloc; 0]?, nouns, rest),
    }
}
