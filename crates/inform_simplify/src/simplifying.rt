//! Simplifying statements, from the inside out.
ghost use Rattle.std.specs.Prelude.{◌≡◌, ◌↔◌, IsTrue, OnOk, IfOk, false, true};
ghost use Rattle.inform_tree.specs.Conditions.{condition_of};
ghost use Rattle.inform_tree.specs.Statements.{Statements, If, statement_of, statements_of, cases_of};
ghost use Rattle.inform_simplify.specs.Tests.{is_plain_test};
ghost use Rattle.inform_simplify.specs.Redexes.{is_never_entered};
ghost use Rattle.inform_simplify.specs.Simplifying.{Becomes, Shortens, CasesShorten};

use crate::equal_statements::statements_are_equal;
use crate::kinds::{is_never_entered, leaves};
use crate::tests::{is_plain_test, truth};
use adv_io::Memory;
use inform_tree::{Case, Cond, Expr, Head, Stmt, Width};
use std::alloc::Global;
use std::mem::replace;

// Whether it makes no difference how a test comes out, and none whether it is made.
fn is_indifferent(test: &Cond, body: &Vec<Stmt>, other: &Vec<Stmt>) -> bool
    ensures { IsTrue result ↔ ((is_plain_test (condition_of test.now) ≡ true)
        × (statements_of body.now.items ≡ statements_of other.now.items)) }
{
    is_plain_test(test) && statements_are_equal(body, other)
}

// An `if` whose two lists are simplified. It is one of them in a block where its test is known, and
// where its test is plain and they are equal.
fn chosen(width: Width, test: Cond, body: Vec<Stmt>, other: Vec<Stmt>) -> Stmt
    ensures { (xs ys : Statements) → Shortens width xs (statements_of body.items)
        → Shortens width ys (statements_of other.items)
        → Becomes width (If (condition_of test) xs ys) (statement_of result) }
{
    match truth(width, &test) {
        Some(true) => Stmt::Block(body),
        Some(false) => Stmt::Block(other),
        None if is_indifferent(&test, &body, &other) => Stmt::Block(body),
        None => Stmt::If(test, body, other),
    }
}

// What is left in the place of a head that is moved.
fn no_head() -> Head {
    Head {
        first: None,
        test: None,
        next: None,
    }
}

// Simplifies a statement, and the lists in it first.
#[cycle(simplifying)]
fn simplify_statement(alloc: Global, width: Width, statement: &mut Stmt) -> Result<(), Memory>
    requires { is_never_entered width (statement_of statement.old) ≡ false }
    ensures { OnOk result (Becomes width (statement_of statement.old)
        (statement_of statement.new)) }
{
    match statement {
        Stmt::Block(body) => {
            let kept = simplified(alloc, width, replace(body, Vec::new(alloc)))?;
            *statement = Stmt::Block(kept);
        }
        Stmt::If(test, body, other) => {
            let kept = simplified(alloc, width, replace(body, Vec::new(alloc)))?;
            let rest = simplified(alloc, width, replace(other, Vec::new(alloc)))?;
            let test = replace(test, Cond::All(Vec::new(alloc)));
            *statement = chosen(width, test, kept, rest);
        }
        Stmt::While(test, body) => {
            let kept = simplified(alloc, width, replace(body, Vec::new(alloc)))?;
            *statement = Stmt::While(replace(test, Cond::All(Vec::new(alloc))), kept);
        }
        Stmt::Do(body, test) => {
            let kept = simplified(alloc, width, replace(body, Vec::new(alloc)))?;
            *statement = Stmt::Do(kept, replace(test, Cond::All(Vec::new(alloc))));
        }
        Stmt::For(head, body) => {
            let kept = simplified(alloc, width, replace(body, Vec::new(alloc)))?;
            let head = replace(head, Box::new(alloc, no_head())?);
            *statement = Stmt::For(head, kept);
        }
        Stmt::Switch(value, cases, rest) => {
            let kept = simplified_cases(alloc, width, replace(cases, Vec::new(alloc)))?;
            let value = replace(value, Expr::Number(0));
            match replace(rest, None) {
                None => *statement = Stmt::Switch(value, kept, None),
                Some(rest) => {
                    let rest = simplified(alloc, width, rest)?;
                    *statement = Stmt::Switch(value, kept, Some(rest));
                }
            }
        }
        _ => {}
    }
    Ok(())
}

// The cases of a `switch`, with their bodies simplified.
#[cycle(simplifying)]
fn simplified_cases(alloc: Global, width: Width, cases: Vec<Case>) -> Result<Vec<Case>, Memory>
    ensures { IfOk result (λ kept. CasesShorten width (cases_of cases.items)
        (cases_of kept.items)) }
{
    let mut kept = Vec::new(alloc);
    for mut case in cases {
        let body = simplified(alloc, width, replace(&mut case.body, Vec::new(alloc)))?;
        case.body = body;
        kept.push(case)?;
    }
    Ok(kept)
}

/// A list of statements, simplified: without the loops that are never entered, and with nothing
/// after a statement that leaves.
#[cycle(simplifying)]
pub fn simplified(alloc: Global, width: Width, statements: Vec<Stmt>) -> Result<Vec<Stmt>, Memory>
    ensures { IfOk result (λ kept. Shortens width (statements_of statements.items)
        (statements_of kept.items)) }
{
    let mut kept = Vec::new(alloc);
    for mut statement in statements {
        if is_never_entered(width, &statement) {
            continue;
        }
        simplify_statement(alloc, width, &mut statement)?;
        let last = leaves(&statement);
        kept.push(statement)?;
        if last {
            return Ok(kept);
        }
    }
    Ok(kept)
}
