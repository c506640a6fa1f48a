//! The tables of items.
ghost use Rattle.std.specs.Prelude.{◌≡◌, IfOk, map, not};
ghost use Rattle.scott_types.specs.Database.{place_of_item};
ghost use Rattle.scott_types.specs.ItemText.{is_treasure as is_treasure_text};
ghost use Rattle.scott_rules.specs.Words.{is_empty, which as the_which};
ghost use Rattle.scott_types.specs.declared.commands.Column.TheVariants.{Nouns};
ghost use Rattle.trans_specs.specs.Tables.{bit, or_zero, item_word};
ghost use Rattle.trans_data.specs.Items.{class_of_item as the_item_class};

use crate::nouns::IndexedNouns;
use adv_io::Memory;
use scott_types::{Item, get_word, is_treasure};
use std::alloc::Global;

/// Where each item is when a game begins.
pub fn start_places(alloc: Global, items: &[Item]) -> Result<Vec<u32>, Memory>
    ensures { IfOk result (λ numbers. numbers.items ≡ map place_of_item items.now) }
{
    let mut numbers = Vec::with_capacity(alloc, items.len())?;
    for item in items {
        numbers.push(item.place as u32)?;
    }
    Ok(numbers)
}

/// Whether each item has a word by which it is taken.
pub fn items_with_words(alloc: Global, items: &[Item]) -> Result<Vec<u32>, Memory>
    ensures { IfOk result (λ numbers. numbers.items
        ≡ map (λ item. bit (not (is_empty (item_word item)))) items.now) }
{
    let mut numbers = Vec::with_capacity(alloc, items.len())?;
    for item in items {
        numbers.push(if get_word(&item.text).is_empty() {
            0
        } else {
            1
        })?;
    }
    Ok(numbers)
}

/// Whether each item is a treasure.
pub fn treasures(alloc: Global, items: &[Item]) -> Result<Vec<u32>, Memory>
    ensures { IfOk result (λ numbers. numbers.items
        ≡ map (λ item. bit (is_treasure_text item.text)) items.now) }
{
    let mut numbers = Vec::with_capacity(alloc, items.len())?;
    for item in items {
        numbers.push(if is_treasure(&item.text) { 1 } else { 0 })?;
    }
    Ok(numbers)
}

/// The noun that the word of each item names.
pub fn item_nouns(alloc: Global, nouns: &IndexedNouns, items: &[Item]) -> Result<Vec<u32>, Memory>
    ensures { IfOk result (λ numbers. numbers.items
        ≡ map (λ item. or_zero (the_which nouns.now Nouns (item_word item))) items.now) }
{
    let mut numbers = Vec::with_capacity(alloc, items.len())?;
    for item in items {
        numbers.push(nouns.noun_of(get_word(&item.text)))?;
    }
    Ok(numbers)
}

// The class of the word of an item.
#[tactic(auto, unfolding(crate::specs::Items::class_of_item))]
fn class_of_item(nouns: &IndexedNouns, item: &Item) -> u32
    ensures { result ≡ the_item_class nouns.now item.now }
{
    nouns.class_of(get_word(&item.text))
}

/// The class of the word of each item.
pub fn item_classes(alloc: Global, nouns: &IndexedNouns, items: &[Item]) -> Result<Vec<u32>, Memory>
    ensures { IfOk result (λ numbers. numbers.items ≡ map (the_item_class nouns.now) items.now) }
{
    let mut numbers = Vec::with_capacity(alloc, items.len())?;
    for item in items {
        numbers.push(class_of_item(nouns, item))?;
    }
    Ok(numbers)
}
