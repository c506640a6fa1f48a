//! Whether constants and expressions are well formed.
ghost use Rattle.std.specs.Prelude.{◌≡◌};
ghost use Rattle.inform_tree.specs.Values.{expression_of, arguments_of, terms_of, factors_of};
ghost use Rattle.inform_tree.specs.Formed.{is_formed_if_any, is_formed_constant, is_formed_expression, are_formed_arguments, are_formed_terms, are_formed_factors, is_formed_sum, is_formed_product};
ghost use Rattle.inform_tree.specs.Words.{is_name};

use crate::names::Name;
use crate::values::{Const, Expr, ProdOp, SumOp};
use crate::words::{is_character, is_name, is_number};

pub fn name_is_formed(name: &Name) -> bool
    ensures { result ≡ is_name name.now }
{
    is_name(name.bytes())
}

pub fn constant_is_formed(constant: &Const) -> bool
    ensures { result ≡ is_formed_constant constant.now }
{
    match constant {
        Const::Number(number) => is_number(*number),
        Const::Char(byte) => is_character(*byte),
        Const::Name(name) => name_is_formed(name),
        Const::Minus(number) => is_number(*number),
    }
}

pub fn constant_is_formed_if_any(constant: &Option<Const>) -> bool
    ensures { result ≡ is_formed_if_any is_formed_constant constant.now }
{
    match constant {
        Some(constant) => constant_is_formed(constant),
        None => true,
    }
}

#[cycle(formed_values)]
#[tactic(auto, using(crate::proofs::Views::expression_of_sum, crate::proofs::Views::expression_of_product))]
pub fn value_is_formed(value: &Expr) -> bool
    ensures { result ≡ is_formed_expression (expression_of value.now) }
{
    match value {
        Expr::Number(number) => is_number(*number),
        Expr::Char(byte) => is_character(*byte),
        Expr::Name(name) => name_is_formed(name),
        Expr::Entry(name, _, index) => name_is_formed(name) && value_is_formed(index),
        Expr::Call(name, arguments) => name_is_formed(name) && values_are_formed(arguments),
        Expr::Random(limit) => value_is_formed(limit),
        Expr::Neg(operand) => value_is_formed(operand),
        Expr::Sum(first, terms) => value_is_formed(first) && sum_is_formed(terms),
        Expr::Product(first, factors) => value_is_formed(first) && product_is_formed(factors),
    }
}

#[cycle(formed_values)]
pub fn values_are_formed(values: &Vec<Expr>) -> bool
    ensures { result ≡ are_formed_arguments (arguments_of values.now.items) }
{
    for value in values {
        if !value_is_formed(value) {
            return false;
        }
    }
    true
}

// The further parts of a sum: there is one.
#[cycle(formed_values)]
#[tactic(auto, using(crate::proofs::Sizes::some_terms))]
fn sum_is_formed(terms: &Vec<(SumOp, Expr)>) -> bool
    ensures { result ≡ is_formed_sum (terms_of terms.now.items) }
{
    0 < terms.len() && terms_are_formed(terms)
}

#[cycle(formed_values)]
fn terms_are_formed(terms: &Vec<(SumOp, Expr)>) -> bool
    ensures { result ≡ are_formed_terms (terms_of terms.now.items) }
{
    for (_, term) in terms {
        if !value_is_formed(term) {
            return false;
        }
    }
    true
}

// The further parts of a product: there is one.
#[cycle(formed_values)]
#[tactic(auto, using(crate::proofs::Sizes::some_factors))]
fn product_is_formed(factors: &Vec<(ProdOp, Expr)>) -> bool
    ensures { result ≡ is_formed_product (factors_of factors.now.items) }
{
    0 < factors.len() && factors_are_formed(factors)
}

#[cycle(formed_values)]
fn factors_are_formed(factors: &Vec<(ProdOp, Expr)>) -> bool
    ensures { result ≡ are_formed_factors (factors_of factors.now.items) }
{
    for (_, factor) in factors {
        if !value_is_formed(factor) {
            return false;
        }
    }
    true
}
