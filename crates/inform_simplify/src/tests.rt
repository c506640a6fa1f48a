//! Tests whose truth is known, and tests that do nothing but look at variables.
ghost use Rattle.std.specs.Prelude.{◌≡◌};
ghost use Rattle.inform_tree.specs.Values.{expression_of, terms_of, factors_of, MoreFactors, NoFactors};
ghost use Rattle.inform_tree.specs.Conditions.{condition_of, conditions_of};
ghost use Rattle.inform_simplify.specs.Tests.{word_of, truth_of, is_plain, are_plain_terms, are_plain_factors, is_plain_test, are_plain_tests};

use inform_meaning::{compares, number};
use inform_tree::{Cond, Expr, ProdOp, SumOp, Width};

// ---- constant tests

// The word of a constant, which is a number or a character.
fn constant_word(width: Width, x: &Expr) -> Option<i32>
    ensures { result ≡ word_of width (expression_of x.now) }
{
    match x {
        Expr::Number(n) => Some(number(width, *n)),
        Expr::Char(byte) => Some(i32::from(*byte)),
        Expr::Name(_) => None,
        Expr::Entry(_, _, _) => None,
        Expr::Call(_, _) => None,
        Expr::Random(_) => None,
        Expr::Neg(_) => None,
        Expr::Sum(_, _) => None,
        Expr::Product(_, _) => None,
    }
}

/// The truth value of a constant test, which is one of a constant, or of two that are compared.
pub fn truth(width: Width, test: &Cond) -> Option<bool>
    ensures { result ≡ truth_of width (condition_of test.now) }
{
    match test {
        Cond::Compare(relation, x, y) => {
            let a = constant_word(width, x)?;
            let b = constant_word(width, y)?;
            Some(compares(*relation, a, b))
        }
        Cond::Nonzero(x) => {
            let a = constant_word(width, x)?;
            Some(a != 0)
        }
        Cond::All(_) => None,
        Cond::Any(_) => None,
        Cond::Not(_) => None,
    }
}

// ---- plain tests

#[cycle(plain_values)]
#[tactic(auto, using(inform_tree::proofs::Views::expression_of_sum, inform_tree::proofs::Views::expression_of_product))]
fn is_plain(x: &Expr) -> bool
    ensures { result ≡ is_plain (expression_of x.now) }
{
    match x {
        Expr::Number(_) => true,
        Expr::Char(_) => true,
        Expr::Name(_) => true,
        Expr::Entry(_, _, _) => false,
        Expr::Call(_, _) => false,
        Expr::Random(_) => false,
        Expr::Neg(operand) => is_plain(operand),
        Expr::Sum(first, terms) => is_plain(first) && are_plain_terms(terms),
        Expr::Product(first, factors) => is_plain(first) && are_plain_factors(factors),
    }
}

#[cycle(plain_values)]
fn are_plain_terms(terms: &Vec<(SumOp, Expr)>) -> bool
    ensures { result ≡ are_plain_terms (terms_of terms.now.items) }
{
    for (_, term) in terms {
        if !is_plain(term) {
            return false;
        }
    }
    true
}

#[cycle(plain_values)]
fn is_plain_factor(op: ProdOp, factor: &Expr) -> bool
    ensures { result ≡ are_plain_factors (MoreFactors op (expression_of factor.now) NoFactors) }
{
    match op {
        ProdOp::Mul => is_plain(factor),
        ProdOp::Div => false,
        ProdOp::Rem => false,
    }
}

#[cycle(plain_values)]
fn are_plain_factors(factors: &Vec<(ProdOp, Expr)>) -> bool
    ensures { result ≡ are_plain_factors (factors_of factors.now.items) }
{
    for (op, factor) in factors {
        if !is_plain_factor(*op, factor) {
            return false;
        }
    }
    true
}

/// Whether a test is plain: it has no entry, call, `random`, division or remainder in it.
#[cycle(plain_tests)]
pub fn is_plain_test(test: &Cond) -> bool
    ensures { result ≡ is_plain_test (condition_of test.now) }
{
    match test {
        Cond::Compare(_, x, y) => is_plain(x) && is_plain(y),
        Cond::Nonzero(x) => is_plain(x),
        Cond::All(tests) => are_plain_tests(tests),
        Cond::Any(tests) => are_plain_tests(tests),
        Cond::Not(operand) => is_plain_test(operand),
    }
}

#[cycle(plain_tests)]
fn are_plain_tests(tests: &Vec<Cond>) -> bool
    ensures { result ≡ are_plain_tests (conditions_of tests.now.items) }
{
    for test in tests {
        if !is_plain_test(test) {
            return false;
        }
    }
    true
}
