//! Whether two expressions are equal, as trees.
ghost use Rattle.std.specs.Prelude.{◌≡◌, ◌↔◌, IsTrue};
ghost use Rattle.inform_tree.specs.Values.{expression_of, arguments_of, terms_of, factors_of};

use inform_tree::{Const, Expr, Name, ProdOp, SumOp};

// ---- names, signs and constants

pub fn names_are_equal(a: &Name, b: &Name) -> bool
    ensures { IsTrue result ↔ (a.now ≡ b.now) }
{
    a.bytes() == b.bytes()
}

fn signs_are_equal(a: SumOp, b: SumOp) -> bool
    ensures { IsTrue result ↔ (a ≡ b) }
{
    match (a, b) {
        (SumOp::Add, SumOp::Add) => true,
        (SumOp::Sub, SumOp::Sub) => true,
        _ => false,
    }
}

fn factor_signs_are_equal(a: ProdOp, b: ProdOp) -> bool
    ensures { IsTrue result ↔ (a ≡ b) }
{
    match (a, b) {
        (ProdOp::Mul, ProdOp::Mul) => true,
        (ProdOp::Div, ProdOp::Div) => true,
        (ProdOp::Rem, ProdOp::Rem) => true,
        _ => false,
    }
}

pub fn constants_are_equal(a: &Const, b: &Const) -> bool
    ensures { IsTrue result ↔ (a.now ≡ b.now) }
{
    match (a, b) {
        (Const::Number(m), Const::Number(n)) => m == n,
        (Const::Char(m), Const::Char(n)) => m == n,
        (Const::Name(m), Const::Name(n)) => names_are_equal(m, n),
        (Const::Minus(m), Const::Minus(n)) => m == n,
        _ => false,
    }
}

// ---- values

#[cycle(values)]
#[tactic(auto, using(inform_tree::proofs::Views::expression_of_sum, inform_tree::proofs::Views::expression_of_product))]
pub fn values_are_equal(a: &Expr, b: &Expr) -> bool
    ensures { IsTrue result ↔ (expression_of a.now ≡ expression_of b.now) }
{
    match (a, b) {
        (Expr::Number(m), Expr::Number(n)) => m == n,
        (Expr::Char(m), Expr::Char(n)) => m == n,
        (Expr::Name(m), Expr::Name(n)) => names_are_equal(m, n),
        (Expr::Entry(m, k, i), Expr::Entry(n, l, j)) => {
            k == l && names_are_equal(m, n) && values_are_equal(i, j)
        }
        (Expr::Call(m, xs), Expr::Call(n, ys)) => {
            names_are_equal(m, n) && all_values_are_equal(xs, ys)
        }
        (Expr::Random(x), Expr::Random(y)) => values_are_equal(x, y),
        (Expr::Neg(x), Expr::Neg(y)) => values_are_equal(x, y),
        (Expr::Sum(x, xs), Expr::Sum(y, ys)) => values_are_equal(x, y) && terms_are_equal(xs, ys),
        (Expr::Product(x, xs), Expr::Product(y, ys)) => {
            values_are_equal(x, y) && factors_are_equal(xs, ys)
        }
        _ => false,
    }
}

#[cycle(values)]
pub fn all_values_are_equal(xs: &Vec<Expr>, ys: &Vec<Expr>) -> bool
    ensures { IsTrue result ↔ (arguments_of xs.now.items ≡ arguments_of ys.now.items) }
{
    if xs.len() != ys.len() {
        return false;
    }
    for (i, x) in xs.iter().enumerate() {
        if !values_are_equal(x, &ys[i]) {
            return false;
        }
    }
    true
}

#[cycle(values)]
fn term_is_equal(a: SumOp, x: &Expr, b: SumOp, y: &Expr) -> bool
    ensures { IsTrue result ↔ ((a ≡ b) × (expression_of x.now ≡ expression_of y.now)) }
{
    signs_are_equal(a, b) && values_are_equal(x, y)
}

#[cycle(values)]
fn terms_are_equal(xs: &Vec<(SumOp, Expr)>, ys: &Vec<(SumOp, Expr)>) -> bool
    ensures { IsTrue result ↔ (terms_of xs.now.items ≡ terms_of ys.now.items) }
{
    if xs.len() != ys.len() {
        return false;
    }
    for (i, x) in xs.iter().enumerate() {
        let y = &ys[i];
        if !term_is_equal(x.0, &x.1, y.0, &y.1) {
            return false;
        }
    }
    true
}

#[cycle(values)]
fn factor_is_equal(a: ProdOp, x: &Expr, b: ProdOp, y: &Expr) -> bool
    ensures { IsTrue result ↔ ((a ≡ b) × (expression_of x.now ≡ expression_of y.now)) }
{
    factor_signs_are_equal(a, b) && values_are_equal(x, y)
}

#[cycle(values)]
fn factors_are_equal(xs: &Vec<(ProdOp, Expr)>, ys: &Vec<(ProdOp, Expr)>) -> bool
    ensures { IsTrue result ↔ (factors_of xs.now.items ≡ factors_of ys.now.items) }
{
    if xs.len() != ys.len() {
        return false;
    }
    for (i, x) in xs.iter().enumerate() {
        let y = &ys[i];
        if !factor_is_equal(x.0, &x.1, y.0, &y.1) {
            return false;
        }
    }
    true
}
