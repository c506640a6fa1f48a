//! Whether two lists of statements are equal, as trees.
ghost use Rattle.std.specs.Prelude.{◌≡◌, ◌↔◌, IsTrue, map, option_map};
ghost use Rattle.inform_tree.specs.Values.{expression_of};
ghost use Rattle.inform_tree.specs.Statements.{assignment_of, assignment_if_any, condition_if_any, print_item_of, statement_of, statements_of, case_of, cases_of};

use crate::equal_conditions::conditions_are_equal;
use crate::equal_values::{
    all_values_are_equal, constants_are_equal, names_are_equal, values_are_equal,
};
use inform_tree::{Case, Change, Cond, Const, Expr, Head, Item, Stmt};

// ---- changes, items of `print` and choices

fn changes_are_equal(a: &Change, b: &Change) -> bool
    ensures { IsTrue result ↔ (assignment_of a.now ≡ assignment_of b.now) }
{
    match (a, b) {
        (Change::Set(m, x), Change::Set(n, y)) => names_are_equal(m, n) && values_are_equal(x, y),
        (Change::SetEntry(m, k, i, x), Change::SetEntry(n, l, j, y)) => {
            k == l && names_are_equal(m, n) && values_are_equal(i, j) && values_are_equal(x, y)
        }
        (Change::Inc(m), Change::Inc(n)) => names_are_equal(m, n),
        (Change::Dec(m), Change::Dec(n)) => names_are_equal(m, n),
        _ => false,
    }
}

fn items_are_equal(a: &Item, b: &Item) -> bool
    ensures { IsTrue result ↔ (print_item_of a.now ≡ print_item_of b.now) }
{
    match (a, b) {
        (Item::Text(m), Item::Text(n)) => m.bytes() == n.bytes(),
        (Item::Value(x), Item::Value(y)) => values_are_equal(x, y),
        (Item::Char(x), Item::Char(y)) => values_are_equal(x, y),
        _ => false,
    }
}

fn all_items_are_equal(xs: &Vec<Item>, ys: &Vec<Item>) -> bool
    ensures { IsTrue result ↔ (map print_item_of xs.now.items ≡ map print_item_of ys.now.items) }
{
    if xs.len() != ys.len() {
        return false;
    }
    for (i, x) in xs.iter().enumerate() {
        if !items_are_equal(x, &ys[i]) {
            return false;
        }
    }
    true
}

fn last_constants_are_equal(a: &Option<Const>, b: &Option<Const>) -> bool
    ensures { IsTrue result ↔ (a.now ≡ b.now) }
{
    match (a, b) {
        (None, None) => true,
        (Some(m), Some(n)) => constants_are_equal(m, n),
        _ => false,
    }
}

fn choices_are_equal(a: &(Const, Option<Const>), b: &(Const, Option<Const>)) -> bool
    ensures { IsTrue result ↔ (a.now ≡ b.now) }
{
    constants_are_equal(&a.0, &b.0) && last_constants_are_equal(&a.1, &b.1)
}

fn all_choices_are_equal(xs: &Vec<(Const, Option<Const>)>, ys: &Vec<(Const, Option<Const>)>) -> bool
    ensures { IsTrue result ↔ (xs.now.items ≡ ys.now.items) }
{
    if xs.len() != ys.len() {
        return false;
    }
    for (i, x) in xs.iter().enumerate() {
        if !choices_are_equal(x, &ys[i]) {
            return false;
        }
    }
    true
}

// ---- what stands in the brackets of a `for`

fn changes_if_any_are_equal(a: &Option<Change>, b: &Option<Change>) -> bool
    ensures { IsTrue result ↔ (assignment_if_any a.now ≡ assignment_if_any b.now) }
{
    match (a, b) {
        (None, None) => true,
        (Some(x), Some(y)) => changes_are_equal(x, y),
        _ => false,
    }
}

fn tests_if_any_are_equal(a: &Option<Cond>, b: &Option<Cond>) -> bool
    ensures { IsTrue result ↔ (condition_if_any a.now ≡ condition_if_any b.now) }
{
    match (a, b) {
        (None, None) => true,
        (Some(x), Some(y)) => conditions_are_equal(x, y),
        _ => false,
    }
}

fn heads_are_equal(a: &Head, b: &Head) -> bool
    ensures { IsTrue result ↔ ((assignment_if_any a.now.first ≡ assignment_if_any b.now.first)
        × (condition_if_any a.now.test ≡ condition_if_any b.now.test)
        × (assignment_if_any a.now.next ≡ assignment_if_any b.now.next)) }
{
    changes_if_any_are_equal(&a.first, &b.first)
        && tests_if_any_are_equal(&a.test, &b.test)
        && changes_if_any_are_equal(&a.next, &b.next)
}

// ---- statements

fn values_if_any_are_equal(a: &Option<Expr>, b: &Option<Expr>) -> bool
    ensures { IsTrue result ↔ (option_map expression_of a.now ≡ option_map expression_of b.now) }
{
    match (a, b) {
        (None, None) => true,
        (Some(x), Some(y)) => values_are_equal(x, y),
        _ => false,
    }
}

#[cycle(statements)]
fn statement_is_equal(a: &Stmt, b: &Stmt) -> bool
    ensures { IsTrue result ↔ (statement_of a.now ≡ statement_of b.now) }
{
    match (a, b) {
        (Stmt::Empty, Stmt::Empty) => true,
        (Stmt::Block(xs), Stmt::Block(ys)) => statements_are_equal(xs, ys),
        (Stmt::Change(x), Stmt::Change(y)) => changes_are_equal(x, y),
        (Stmt::Call(m, xs), Stmt::Call(n, ys)) => {
            names_are_equal(m, n) && all_values_are_equal(xs, ys)
        }
        (Stmt::If(x, xs, vs), Stmt::If(y, ys, ws)) => {
            conditions_are_equal(x, y)
                && statements_are_equal(xs, ys)
                && statements_are_equal(vs, ws)
        }
        (Stmt::While(x, xs), Stmt::While(y, ys)) => {
            conditions_are_equal(x, y) && statements_are_equal(xs, ys)
        }
        (Stmt::Do(xs, x), Stmt::Do(ys, y)) => {
            conditions_are_equal(x, y) && statements_are_equal(xs, ys)
        }
        (Stmt::For(x, xs), Stmt::For(y, ys)) => {
            heads_are_equal(x, y) && statements_are_equal(xs, ys)
        }
        (Stmt::Switch(x, xs, None), Stmt::Switch(y, ys, None)) => {
            values_are_equal(x, y) && cases_are_equal(xs, ys)
        }
        (Stmt::Switch(x, xs, Some(vs)), Stmt::Switch(y, ys, Some(ws))) => {
            values_are_equal(x, y) && cases_are_equal(xs, ys) && statements_are_equal(vs, ws)
        }
        (Stmt::Break, Stmt::Break) => true,
        (Stmt::Continue, Stmt::Continue) => true,
        (Stmt::Quit, Stmt::Quit) => true,
        (Stmt::Rtrue, Stmt::Rtrue) => true,
        (Stmt::Rfalse, Stmt::Rfalse) => true,
        (Stmt::Return(x), Stmt::Return(y)) => values_if_any_are_equal(x, y),
        (Stmt::NewLine, Stmt::NewLine) => true,
        (Stmt::Print(xs), Stmt::Print(ys)) => all_items_are_equal(xs, ys),
        (Stmt::Read(m, k), Stmt::Read(n, l)) => names_are_equal(m, n) && names_are_equal(k, l),
        _ => false,
    }
}

/// Whether two lists of statements are equal: one look at each node of the shorter.
#[cycle(statements)]
pub fn statements_are_equal(xs: &Vec<Stmt>, ys: &Vec<Stmt>) -> bool
    ensures { IsTrue result ↔ (statements_of xs.now.items ≡ statements_of ys.now.items) }
{
    if xs.len() != ys.len() {
        return false;
    }
    for (i, x) in xs.iter().enumerate() {
        if !statement_is_equal(x, &ys[i]) {
            return false;
        }
    }
    true
}

#[cycle(statements)]
fn case_is_equal(a: &Case, b: &Case) -> bool
    ensures { IsTrue result ↔ (case_of a.now ≡ case_of b.now) }
{
    all_choices_are_equal(&a.choices, &b.choices) && statements_are_equal(&a.body, &b.body)
}

#[cycle(statements)]
fn cases_are_equal(xs: &Vec<Case>, ys: &Vec<Case>) -> bool
    ensures { IsTrue result ↔ (cases_of xs.now.items ≡ cases_of ys.now.items) }
{
    if xs.len() != ys.len() {
        return false;
    }
    for (i, x) in xs.iter().enumerate() {
        if !case_is_equal(x, &ys[i]) {
            return false;
        }
    }
    true
}
