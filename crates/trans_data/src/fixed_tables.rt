//! The arrays that never change, and the buffers of a line.
ghost use Rattle.std.specs.Prelude.{◌≡◌, [], ◌∷◌, IfOk, map, codes};
ghost use Rattle.inform_tree.specs.Programs.{directive_of};
ghost use Rattle.scott_types.specs.declared.commands.Column.TheVariants.{Verbs, Nouns};
ghost use Rattle.trans_specs.specs.Tables.{start_places as the_places, exits as the_exits, word_letters as the_letters, word_bases, noun_classes, item_classes as the_item_classes, item_nouns as the_item_nouns, items_with_words as the_words, treasures as the_treasures};
ghost use Rattle.trans_specs.specs.Directives.{words as the_array, bytes as the_bytes, buffers as the_buffers, fixed_arrays as the_arrays};

use crate::classes::classes;
use crate::entries::{bytes, with_guard, words, zero_bytes};
use crate::exit_tables::exits;
use crate::item_tables::{item_classes, item_nouns, items_with_words, start_places, treasures};
use crate::nouns::IndexedNouns;
use crate::word_tables::{bases, word_letters};
use adv_io::Memory;
use inform_codes::joined;
use inform_tree::Directive;
use scott_types::{Column, Db};
use std::alloc::Global;

fn places_array(alloc: Global, db: &Db) -> Result<Directive, Memory>
    ensures { IfOk result (λ directive. directive_of directive
        ≡ the_array (codes "start") (the_places db.now)) }
{
    let numbers = with_guard(start_places(alloc, db.items())?)?;
    words(alloc, b"start", numbers.as_slice())
}

fn exits_array(alloc: Global, db: &Db) -> Result<Directive, Memory>
    ensures { IfOk result (λ directive. directive_of directive
        ≡ the_array (codes "exits") (the_exits db.now)) }
{
    let numbers = with_guard(exits(alloc, db)?)?;
    words(alloc, b"exits", numbers.as_slice())
}

fn letters_array(alloc: Global, db: &Db, column: Column, name: &[u8]) -> Result<Directive, Memory>
    ensures { IfOk result (λ directive. directive_of directive
        ≡ the_bytes name.now (the_letters db.now column)) }
{
    let numbers = with_guard(word_letters(alloc, db, column)?)?;
    bytes(alloc, name, numbers.as_slice())
}

fn bases_array(alloc: Global, db: &Db, column: Column, name: &[u8]) -> Result<Directive, Memory>
    ensures { IfOk result (λ directive. directive_of directive
        ≡ the_array name.now (word_bases db.now column)) }
{
    let numbers = with_guard(bases(alloc, db, column)?)?;
    words(alloc, name, numbers.as_slice())
}

fn noun_classes_array(alloc: Global, nouns: &IndexedNouns) -> Result<Directive, Memory>
    ensures { IfOk result (λ directive. directive_of directive
        ≡ the_array (codes "nclass") (noun_classes nouns.now)) }
{
    let numbers = with_guard(classes(alloc, nouns)?)?;
    words(alloc, b"nclass", numbers.as_slice())
}

#[tactic(auto, unfolding(crate::specs::Items::class_of_item))]
fn item_classes_array(alloc: Global, nouns: &IndexedNouns) -> Result<Directive, Memory>
    ensures { IfOk result (λ directive. directive_of directive
        ≡ the_array (codes "iclass") (the_item_classes nouns.now)) }
{
    let numbers = with_guard(item_classes(alloc, nouns, nouns.db().items())?)?;
    words(alloc, b"iclass", numbers.as_slice())
}

fn item_nouns_array(alloc: Global, nouns: &IndexedNouns) -> Result<Directive, Memory>
    ensures { IfOk result (λ directive. directive_of directive
        ≡ the_array (codes "inoun") (the_item_nouns nouns.now)) }
{
    let numbers = with_guard(item_nouns(alloc, nouns, nouns.db().items())?)?;
    words(alloc, b"inoun", numbers.as_slice())
}

fn item_words_array(alloc: Global, db: &Db) -> Result<Directive, Memory>
    ensures { IfOk result (λ directive. directive_of directive
        ≡ the_array (codes "iget") (the_words db.now)) }
{
    let numbers = with_guard(items_with_words(alloc, db.items())?)?;
    words(alloc, b"iget", numbers.as_slice())
}

fn treasures_array(alloc: Global, db: &Db) -> Result<Directive, Memory>
    ensures { IfOk result (λ directive. directive_of directive
        ≡ the_array (codes "gold") (the_treasures db.now)) }
{
    let numbers = with_guard(treasures(alloc, db.items())?)?;
    words(alloc, b"gold", numbers.as_slice())
}

// The places, exits and vocabulary.
fn first_arrays(alloc: Global, db: &Db) -> Result<Vec<Directive>, Memory>
    ensures { IfOk result (λ directives. map directive_of directives.items
        ≡ the_array (codes "start") (the_places db.now)
        ∷ the_array (codes "exits") (the_exits db.now)
        ∷ the_bytes (codes "vword") (the_letters db.now Verbs)
        ∷ the_bytes (codes "nword") (the_letters db.now Nouns)
        ∷ the_array (codes "vroot") (word_bases db.now Verbs)
        ∷ the_array (codes "nroot") (word_bases db.now Nouns)
        ∷ []) }
{
    let mut arrays = Vec::new(alloc);
    arrays.push(places_array(alloc, db)?)?;
    arrays.push(exits_array(alloc, db)?)?;
    arrays.push(letters_array(alloc, db, Column::Verbs, b"vword")?)?;
    arrays.push(letters_array(alloc, db, Column::Nouns, b"nword")?)?;
    arrays.push(bases_array(alloc, db, Column::Verbs, b"vroot")?)?;
    arrays.push(bases_array(alloc, db, Column::Nouns, b"nroot")?)?;
    Ok(arrays)
}

// The classes, and what the words of items name.
fn noun_arrays(alloc: Global, nouns: &IndexedNouns) -> Result<Vec<Directive>, Memory>
    ensures { IfOk result (λ directives. map directive_of directives.items
        ≡ the_array (codes "nclass") (noun_classes nouns.now)
        ∷ the_array (codes "iclass") (the_item_classes nouns.now)
        ∷ the_array (codes "inoun") (the_item_nouns nouns.now)
        ∷ []) }
{
    let mut arrays = Vec::new(alloc);
    arrays.push(noun_classes_array(alloc, nouns)?)?;
    arrays.push(item_classes_array(alloc, nouns)?)?;
    arrays.push(item_nouns_array(alloc, nouns)?)?;
    Ok(arrays)
}

// What else is known of items.
fn item_arrays(alloc: Global, db: &Db) -> Result<Vec<Directive>, Memory>
    ensures { IfOk result (λ directives. map directive_of directives.items
        ≡ the_array (codes "iget") (the_words db.now)
        ∷ the_array (codes "gold") (the_treasures db.now)
        ∷ []) }
{
    let mut arrays = Vec::new(alloc);
    arrays.push(item_words_array(alloc, db)?)?;
    arrays.push(treasures_array(alloc, db)?)?;
    Ok(arrays)
}

/// The arrays that never change. The nouns are put into indexes once.
pub fn fixed_arrays(alloc: Global, db: &Db) -> Result<Vec<Directive>, Memory>
    ensures { IfOk result (λ directives. map directive_of directives.items
        ≡ the_arrays db.now) }
{
    let nouns = IndexedNouns::of(alloc, db)?;
    let found = joined(noun_arrays(alloc, &nouns)?, item_arrays(alloc, db)?)?;
    joined(first_arrays(alloc, db)?, found)
}

/// The arrays that a line is read into.
pub fn buffers(alloc: Global) -> Result<Vec<Directive>, Memory>
    ensures { IfOk result (λ directives. map directive_of directives.items ≡ the_buffers) }
{
    let mut arrays = Vec::new(alloc);
    arrays.push(zero_bytes(alloc, b"buf", 123)?)?;
    arrays.push(zero_bytes(alloc, b"pbuf", 2)?)?;
    Ok(arrays)
}
