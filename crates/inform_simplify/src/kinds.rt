//! Statements after which nothing is done, and loops that are never entered.
ghost use Rattle.std.specs.Prelude.{◌≡◌};
ghost use Rattle.inform_tree.specs.Statements.{statement_of};
ghost use Rattle.inform_simplify.specs.Redexes.{leaves, is_never_entered};

use crate::tests::truth;
use inform_tree::{Stmt, Width};

/// Whether what stands after such a statement in its list is never done.
pub fn leaves(statement: &Stmt) -> bool
    ensures { result ≡ leaves (statement_of statement.now) }
{
    match statement {
        Stmt::Break => true,
        Stmt::Continue => true,
        Stmt::Quit => true,
        Stmt::Rtrue => true,
        Stmt::Rfalse => true,
        Stmt::Return(_) => true,
        Stmt::Empty => false,
        Stmt::Block(_) => false,
        Stmt::Change(_) => false,
        Stmt::Call(_, _) => false,
        Stmt::If(_, _, _) => false,
        Stmt::While(_, _) => false,
        Stmt::Do(_, _) => false,
        Stmt::For(_, _) => false,
        Stmt::Switch(_, _, _) => false,
        Stmt::NewLine => false,
        Stmt::Print(_) => false,
        Stmt::Read(_, _) => false,
    }
}

/// Whether a statement is a `while` whose test is constant and false.
pub fn is_never_entered(width: Width, statement: &Stmt) -> bool
    ensures { result ≡ is_never_entered width (statement_of statement.now) }
{
    match statement {
        Stmt::While(test, _) => match truth(width, test) {
            Some(holds) => !holds,
            None => false,
        },
        Stmt::Empty => false,
        Stmt::Block(_) => false,
        Stmt::Change(_) => false,
        Stmt::Call(_, _) => false,
        Stmt::If(_, _, _) => false,
        Stmt::Do(_, _) => false,
        Stmt::For(_, _) => false,
        Stmt::Switch(_, _, _) => false,
        Stmt::Break => false,
        Stmt::Continue => false,
        Stmt::Quit => false,
        Stmt::Rtrue => false,
        Stmt::Rfalse => false,
        Stmt::Return(_) => false,
        Stmt::NewLine => false,
        Stmt::Print(_) => false,
        Stmt::Read(_, _) => false,
    }
}
