//! How constants and expressions are printed.
ghost use Rattle.std.specs.Prelude.{true, false, OnOk};
ghost use Rattle.inform_tree.specs.Values.{expression_of, arguments_of, terms_of, factors_of};
ghost use Rattle.inform_printer.specs.Printing.{Prints};
ghost use Rattle.inform_printer.specs.ValueLexemes.{opening, closing, separated, constant_lexemes, entry_lexemes, round, first_lexemes, element_lexemes, negative_lexemes, call_lexemes, value_lexemes, argument_lexemes, term_lexemes, factor_lexemes};

use crate::signs::{arrow, factor_sign, term_sign};
use crate::writing::{put_character, put_name, put_number, put_sign, put_word};
use adv_io::Memory;
use inform_lexemes::{Keyword, Symbol};
use inform_tree::{Const, Expr, Name, ProdOp, SumOp};

// ---- brackets and separators

/// Writes an opening bracket where there is one.
pub fn put_opening(out: &mut Vec<u8>, part: bool) -> Result<(), Memory>
    ensures { OnOk result (Prints (opening part) out.old.items out.new.items) }
{
    if part {
        put_sign(out, Symbol::LeftRound)?;
    }
    Ok(())
}

/// Writes a closing bracket where there is one.
pub fn put_closing(out: &mut Vec<u8>, part: bool) -> Result<(), Memory>
    ensures { OnOk result (Prints (closing part) out.old.items out.new.items) }
{
    if part {
        put_sign(out, Symbol::RightRound)?;
    }
    Ok(())
}

/// Writes a separator where there is one.
pub fn put_separator(out: &mut Vec<u8>, later: bool, symbol: Symbol) -> Result<(), Memory>
    ensures { OnOk result (Prints (separated later symbol) out.old.items out.new.items) }
{
    if later {
        put_sign(out, symbol)?;
    }
    Ok(())
}

// ---- constants

/// Prints a constant.
pub fn put_constant(out: &mut Vec<u8>, constant: &Const) -> Result<(), Memory>
    ensures { OnOk result (Prints (constant_lexemes constant.now) out.old.items out.new.items) }
{
    match constant {
        Const::Number(number) => put_number(out, *number),
        Const::Char(byte) => put_character(out, *byte),
        Const::Name(name) => put_name(out, name),
        Const::Minus(number) => {
            put_sign(out, Symbol::Minus)?;
            put_number(out, *number)?;
            Ok(())
        }
    }
}

/// Prints an entry of an array.
pub fn put_entry(out: &mut Vec<u8>, entry: &Const) -> Result<(), Memory>
    ensures { OnOk result (Prints (entry_lexemes entry.now) out.old.items out.new.items) }
{
    let below_zero = matches!(entry, Const::Minus(_));
    put_opening(out, below_zero)?;
    put_constant(out, entry)?;
    put_closing(out, below_zero)?;
    Ok(())
}

// ---- expressions

/// Prints the name of an array, its arrow and an index.
#[cycle(values)]
pub fn put_element(out: &mut Vec<u8>, name: &Name, words: bool, index: &Expr) -> Result<(), Memory>
    ensures { OnOk result (Prints (element_lexemes name.now words (expression_of index.now))
        out.old.items out.new.items) }
{
    put_name(out, name)?;
    put_sign(out, arrow(words))?;
    put_value(out, true, index)?;
    Ok(())
}

// Prints the first part of a chain, after the bracket of the chain.
#[cycle(values)]
fn put_first(out: &mut Vec<u8>, part: bool, first: &Expr) -> Result<(), Memory>
    ensures { OnOk result (Prints (first_lexemes part (expression_of first.now))
        out.old.items out.new.items) }
{
    put_opening(out, part)?;
    put_value(out, true, first)?;
    Ok(())
}

// Prints an operand after a minus sign.
#[cycle(values)]
fn put_negative(out: &mut Vec<u8>, operand: &Expr) -> Result<(), Memory>
    ensures { OnOk result (Prints (negative_lexemes (expression_of operand.now))
        out.old.items out.new.items) }
{
    put_sign(out, Symbol::Minus)?;
    put_value(out, true, operand)?;
    Ok(())
}

/// Prints an expression in round brackets.
#[cycle(values)]
pub fn put_in_brackets(out: &mut Vec<u8>, value: &Expr) -> Result<(), Memory>
    ensures { OnOk result (Prints (round (value_lexemes false (expression_of value.now)))
        out.old.items out.new.items) }
{
    put_sign(out, Symbol::LeftRound)?;
    put_value(out, false, value)?;
    put_sign(out, Symbol::RightRound)?;
    Ok(())
}

/// Prints a call with its arguments.
#[cycle(values)]
pub fn put_call(out: &mut Vec<u8>, name: &Name, arguments: &Vec<Expr>) -> Result<(), Memory>
    ensures { OnOk result (Prints (call_lexemes name.now (arguments_of arguments.now.items))
        out.old.items out.new.items) }
{
    put_name(out, name)?;
    put_sign(out, Symbol::LeftRound)?;
    put_arguments(out, arguments)?;
    Ok(())
}

/// Prints an expression: as a part of a chain, an index or an operand, or by itself.
#[cycle(values)]
pub fn put_value(out: &mut Vec<u8>, part: bool, value: &Expr) -> Result<(), Memory>
    ensures { OnOk result (Prints (value_lexemes part (expression_of value.now))
        out.old.items out.new.items) }
{
    match value {
        Expr::Number(number) => put_number(out, *number),
        Expr::Char(byte) => put_character(out, *byte),
        Expr::Name(name) => put_name(out, name),
        Expr::Entry(name, words, index) => {
            put_opening(out, part)?;
            put_element(out, name, *words, index)?;
            put_closing(out, part)?;
            Ok(())
        }
        Expr::Call(name, arguments) => {
            put_call(out, name, arguments)?;
            Ok(())
        }
        Expr::Random(limit) => {
            put_word(out, Keyword::Random)?;
            put_in_brackets(out, limit)?;
            Ok(())
        }
        Expr::Neg(operand) => {
            put_opening(out, part)?;
            put_negative(out, operand)?;
            put_closing(out, part)?;
            Ok(())
        }
        Expr::Sum(first, terms) => {
            put_first(out, part, first)?;
            put_terms(out, terms)?;
            put_closing(out, part)?;
            Ok(())
        }
        Expr::Product(first, factors) => {
            put_first(out, part, first)?;
            put_factors(out, factors)?;
            put_closing(out, part)?;
            Ok(())
        }
    }
}

// Prints the arguments of a call, with the closing bracket.
#[cycle(values)]
fn put_arguments(out: &mut Vec<u8>, arguments: &Vec<Expr>) -> Result<(), Memory>
    ensures { OnOk result (Prints (argument_lexemes false (arguments_of arguments.now.items))
        out.old.items out.new.items) }
{
    let mut later = false;
    for argument in arguments {
        put_separator(out, later, Symbol::Comma)?;
        put_value(out, false, argument)?;
        later = true;
    }
    put_sign(out, Symbol::RightRound)?;
    Ok(())
}

// Prints the further parts of a sum.
#[cycle(values)]
fn put_terms(out: &mut Vec<u8>, terms: &Vec<(SumOp, Expr)>) -> Result<(), Memory>
    ensures { OnOk result (Prints (term_lexemes (terms_of terms.now.items))
        out.old.items out.new.items) }
{
    for (op, term) in terms {
        put_sign(out, term_sign(*op))?;
        put_value(out, true, term)?;
    }
    Ok(())
}

// Prints the further parts of a product.
#[cycle(values)]
fn put_factors(out: &mut Vec<u8>, factors: &Vec<(ProdOp, Expr)>) -> Result<(), Memory>
    ensures { OnOk result (Prints (factor_lexemes (factors_of factors.now.items))
        out.old.items out.new.items) }
{
    for (op, factor) in factors {
        put_sign(out, factor_sign(*op))?;
        put_value(out, true, factor)?;
    }
    Ok(())
}
