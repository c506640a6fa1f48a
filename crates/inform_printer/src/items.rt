//! How changes, items of `print`, choices and the head of a `for` are printed.
ghost use Rattle.std.specs.Prelude.{false, ◌∷◌, map, OnOk};
ghost use Rattle.inform_tree.specs.Conditions.{condition_of};
ghost use Rattle.inform_tree.specs.Statements.{assignment_of, assignment_if_any, condition_if_any, print_item_of};
ghost use Rattle.inform_lexemes.specs.declared.symbols.Symbol.TheVariants.{LeftRound, RightRound, Colon, Semicolon};
ghost use Rattle.inform_lexemes.specs.declared.keywords.Keyword.TheVariants as w;
ghost use Rattle.inform_lexemes.specs.Lexemes.{Word, Sign};
ghost use Rattle.inform_printer.specs.Printing.{Prints};
ghost use Rattle.inform_printer.specs.ValueLexemes.{round};
ghost use Rattle.inform_printer.specs.ConditionLexemes.{condition_lexemes};
ghost use Rattle.inform_printer.specs.StatementLexemes.{assignment_lexemes, optional_lexemes, item_lexemes, items_lexemes, upper_lexemes, choice_lexemes, choices_lexemes, head_lexemes_of};

use crate::conditions::{put_condition, put_test};
use crate::values::{put_constant, put_element, put_separator, put_value};
use crate::writing::{put_name, put_sign, put_text, put_word};
use adv_io::Memory;
use inform_lexemes::{Keyword, Symbol};
use inform_tree::{Change, Cond, Const, Head, Item};

// ---- changes

/// Prints a change.
pub fn put_change(out: &mut Vec<u8>, change: &Change) -> Result<(), Memory>
    ensures { OnOk result (Prints (assignment_lexemes (assignment_of change.now))
        out.old.items out.new.items) }
{
    match change {
        Change::Set(name, value) => {
            put_name(out, name)?;
            put_sign(out, Symbol::Assign)?;
            put_value(out, false, value)?;
            Ok(())
        }
        Change::SetEntry(name, words, index, value) => {
            put_element(out, name, *words, index)?;
            put_sign(out, Symbol::Assign)?;
            put_value(out, false, value)?;
            Ok(())
        }
        Change::Inc(name) => {
            put_name(out, name)?;
            put_sign(out, Symbol::Increment)?;
            Ok(())
        }
        Change::Dec(name) => {
            put_name(out, name)?;
            put_sign(out, Symbol::Decrement)?;
            Ok(())
        }
    }
}

// Prints a change where there is one.
fn put_change_if_any(out: &mut Vec<u8>, change: &Option<Change>) -> Result<(), Memory>
    ensures { OnOk result (Prints
        (optional_lexemes assignment_lexemes (assignment_if_any change.now))
        out.old.items out.new.items) }
{
    match change {
        Some(change) => put_change(out, change),
        None => Ok(()),
    }
}

// ---- conditions

/// Prints a condition in brackets, after a word of the grammar.
pub fn put_tested(out: &mut Vec<u8>, keyword: Keyword, test: &Cond) -> Result<(), Memory>
    ensures { OnOk result (Prints
        (λ rest. Word keyword ∷ round (condition_lexemes false (condition_of test.now)) rest)
        out.old.items out.new.items) }
{
    put_word(out, keyword)?;
    put_test(out, test)?;
    Ok(())
}

// Prints a condition where there is one.
fn put_condition_if_any(out: &mut Vec<u8>, test: &Option<Cond>) -> Result<(), Memory>
    ensures { OnOk result (Prints
        (optional_lexemes (condition_lexemes false) (condition_if_any test.now))
        out.old.items out.new.items) }
{
    match test {
        Some(test) => put_condition(out, false, test),
        None => Ok(()),
    }
}

// ---- the head of a `for`

// Prints what is done first, up to its colon.
fn put_first_change(out: &mut Vec<u8>, first: &Option<Change>) -> Result<(), Memory>
    ensures { OnOk result (Prints
        (λ rest. Sign LeftRound ∷ optional_lexemes assignment_lexemes
        (assignment_if_any first.now) (Sign Colon ∷ rest))
        out.old.items out.new.items) }
{
    put_sign(out, Symbol::LeftRound)?;
    put_change_if_any(out, first)?;
    put_sign(out, Symbol::Colon)?;
    Ok(())
}

// Prints the test of each turn, up to its colon.
fn put_turn_test(out: &mut Vec<u8>, test: &Option<Cond>) -> Result<(), Memory>
    ensures { OnOk result (Prints
        (λ rest. optional_lexemes (condition_lexemes false)
        (condition_if_any test.now) (Sign Colon ∷ rest))
        out.old.items out.new.items) }
{
    put_condition_if_any(out, test)?;
    put_sign(out, Symbol::Colon)?;
    Ok(())
}

// Prints what is done after each turn, up to the closing bracket.
fn put_last_change(out: &mut Vec<u8>, next: &Option<Change>) -> Result<(), Memory>
    ensures { OnOk result (Prints
        (λ rest. optional_lexemes assignment_lexemes
        (assignment_if_any next.now) (Sign RightRound ∷ rest))
        out.old.items out.new.items) }
{
    put_change_if_any(out, next)?;
    put_sign(out, Symbol::RightRound)?;
    Ok(())
}

/// Prints what stands in the brackets of a `for`, with them.
pub fn put_head(out: &mut Vec<u8>, head: &Head) -> Result<(), Memory>
    ensures { OnOk result (Prints (head_lexemes_of head.now) out.old.items out.new.items) }
{
    put_first_change(out, &head.first)?;
    put_turn_test(out, &head.test)?;
    put_last_change(out, &head.next)?;
    Ok(())
}

// ---- items of `print`

// Prints `(char)`.
fn put_char_mark(out: &mut Vec<u8>) -> Result<(), Memory>
    ensures { OnOk result (Prints (λ rest. Sign LeftRound ∷ Word w.Char ∷ Sign RightRound ∷ rest)
        out.old.items out.new.items) }
{
    put_sign(out, Symbol::LeftRound)?;
    put_word(out, Keyword::Char)?;
    put_sign(out, Symbol::RightRound)?;
    Ok(())
}

fn put_item(out: &mut Vec<u8>, item: &Item) -> Result<(), Memory>
    ensures { OnOk result (Prints (item_lexemes (print_item_of item.now))
        out.old.items out.new.items) }
{
    match item {
        Item::Text(text) => put_text(out, text),
        Item::Value(value) => put_value(out, false, value),
        Item::Char(value) => {
            put_char_mark(out)?;
            put_value(out, false, value)?;
            Ok(())
        }
    }
}

/// Prints items of `print`, with commas between them.
pub fn put_items(out: &mut Vec<u8>, items: &[Item]) -> Result<(), Memory>
    ensures { OnOk result (Prints (items_lexemes false (map print_item_of items.now))
        out.old.items out.new.items) }
{
    let mut later = false;
    for item in items {
        put_separator(out, later, Symbol::Comma)?;
        put_item(out, item)?;
        later = true;
    }
    Ok(())
}

// ---- choices

// Prints the last value of a range, where it is one.
fn put_upper_if_any(out: &mut Vec<u8>, upper: &Option<Const>) -> Result<(), Memory>
    ensures { OnOk result (Prints (optional_lexemes upper_lexemes upper.now)
        out.old.items out.new.items) }
{
    match upper {
        Some(upper) => {
            put_word(out, Keyword::To)?;
            put_constant(out, upper)?;
            Ok(())
        }
        None => Ok(()),
    }
}

fn put_choice(out: &mut Vec<u8>, choice: &(Const, Option<Const>)) -> Result<(), Memory>
    ensures { OnOk result (Prints (choice_lexemes choice.now) out.old.items out.new.items) }
{
    put_constant(out, &choice.0)?;
    put_upper_if_any(out, &choice.1)?;
    Ok(())
}

// Prints choices, with commas between them.
fn put_choices(out: &mut Vec<u8>, choices: &[(Const, Option<Const>)]) -> Result<(), Memory>
    ensures { OnOk result (Prints (choices_lexemes false choices.now) out.old.items out.new.items) }
{
    let mut later = false;
    for choice in choices {
        put_separator(out, later, Symbol::Comma)?;
        put_choice(out, choice)?;
        later = true;
    }
    Ok(())
}

/// Prints the choices of a case, up to its colon.
pub fn put_case_label(out: &mut Vec<u8>, choices: &[(Const, Option<Const>)]) -> Result<(), Memory>
    ensures { OnOk result (Prints (λ rest. choices_lexemes false choices.now (Sign Colon ∷ rest))
        out.old.items out.new.items) }
{
    put_choices(out, choices)?;
    put_sign(out, Symbol::Colon)?;
    Ok(())
}
