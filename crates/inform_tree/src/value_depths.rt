//! How deep an expression is.
ghost use Rattle.std.specs.Prelude.{◌≡◌};
ghost use Rattle.inform_tree.specs.Values.{expression_of, arguments_of, terms_of, factors_of};
ghost use Rattle.inform_tree.specs.Depths.{expression_depth, arguments_depth, terms_depth, factors_depth, counted};

use crate::values::{Expr, ProdOp, SumOp};

/// The depth of an expression, as `depth` counts it.
#[cycle(value_depths)]
#[tactic(auto, using(crate::proofs::Views::expression_of_sum, crate::proofs::Views::expression_of_product))]
pub fn depth_of_value(value: &Expr) -> u32
    ensures { result ≡ counted (expression_depth (expression_of value.now)) }
{
    match value {
        Expr::Number(_) => 1,
        Expr::Char(_) => 1,
        Expr::Name(_) => 1,
        Expr::Entry(_, _, index) => depth_of_value(index).saturating_add(1),
        Expr::Call(_, arguments) => depth_of_values(arguments).saturating_add(1),
        Expr::Random(limit) => depth_of_value(limit).saturating_add(1),
        Expr::Neg(operand) => depth_of_value(operand).saturating_add(1),
        Expr::Sum(first, terms) => depth_of_value(first)
            .max(depth_of_terms(terms))
            .saturating_add(1),
        Expr::Product(first, factors) => depth_of_value(first)
            .max(depth_of_factors(factors))
            .saturating_add(1),
    }
}

/// The greatest depth of some expressions, or 0.
#[cycle(value_depths)]
pub fn depth_of_values(values: &Vec<Expr>) -> u32
    ensures { result ≡ counted (arguments_depth (arguments_of values.now.items)) }
{
    let mut deepest: u32 = 0;
    for value in values {
        deepest = deepest.max(depth_of_value(value));
    }
    deepest
}

#[cycle(value_depths)]
fn depth_of_terms(terms: &Vec<(SumOp, Expr)>) -> u32
    ensures { result ≡ counted (terms_depth (terms_of terms.now.items)) }
{
    let mut deepest: u32 = 0;
    for (_, term) in terms {
        deepest = deepest.max(depth_of_value(term));
    }
    deepest
}

#[cycle(value_depths)]
fn depth_of_factors(factors: &Vec<(ProdOp, Expr)>) -> u32
    ensures { result ≡ counted (factors_depth (factors_of factors.now.items)) }
{
    let mut deepest: u32 = 0;
    for (_, factor) in factors {
        deepest = deepest.max(depth_of_value(factor));
    }
    deepest
}
