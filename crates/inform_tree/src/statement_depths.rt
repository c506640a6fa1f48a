//! How deep a statement is, and a routine.
ghost use Rattle.std.specs.Prelude.{◌≡◌, map};
ghost use Rattle.inform_tree.specs.Statements.{assignment_of, assignment_if_any, condition_if_any, print_item_of, statement_of, statements_of, cases_of};
ghost use Rattle.inform_tree.specs.Programs.{routine_of};
ghost use Rattle.inform_tree.specs.Depths.{assignment_depth, item_depth, items_depth, counted, optional_depth, head_depth_of, condition_depth, statement_depth, statements_depth, cases_depth, routine_depth};

use crate::condition_depths::depth_of_condition;
use crate::conditions::Cond;
use crate::programs::Routine;
use crate::statements::{Case, Change, Head, Item, Stmt};
use crate::value_depths::{depth_of_value, depth_of_values};

fn depth_of_change(change: &Change) -> u32
    ensures { result ≡ counted (assignment_depth (assignment_of change.now)) }
{
    match change {
        Change::Set(_, value) => depth_of_value(value),
        Change::SetEntry(_, _, index, value) => depth_of_value(index).max(depth_of_value(value)),
        Change::Inc(_) => 0,
        Change::Dec(_) => 0,
    }
}

fn depth_of_item(item: &Item) -> u32
    ensures { result ≡ counted (item_depth (print_item_of item.now)) }
{
    match item {
        Item::Text(_) => 0,
        Item::Value(value) => depth_of_value(value),
        Item::Char(value) => depth_of_value(value),
    }
}

fn depth_of_items(items: &Vec<Item>) -> u32
    ensures { result ≡ counted (items_depth (map print_item_of items.now.items)) }
{
    let mut deepest: u32 = 0;
    for item in items {
        deepest = deepest.max(depth_of_item(item));
    }
    deepest
}

fn depth_of_change_if_any(change: &Option<Change>) -> u32
    ensures { result ≡ counted (optional_depth assignment_depth (assignment_if_any change.now)) }
{
    match change {
        Some(change) => depth_of_change(change),
        None => 0,
    }
}

fn depth_of_test_if_any(test: &Option<Cond>) -> u32
    ensures { result ≡ counted (optional_depth condition_depth (condition_if_any test.now)) }
{
    match test {
        Some(test) => depth_of_condition(test),
        None => 0,
    }
}

// What stands in the brackets of a `for`.
fn depth_of_head(head: &Head) -> u32
    ensures { result ≡ counted (head_depth_of head.now) }
{
    depth_of_change_if_any(&head.first)
        .max(depth_of_test_if_any(&head.test))
        .max(depth_of_change_if_any(&head.next))
}

#[cycle(statement_depths)]
fn depth_of_statement(statement: &Stmt) -> u32
    ensures { result ≡ counted (statement_depth (statement_of statement.now)) }
{
    match statement {
        Stmt::Empty => 1,
        Stmt::Block(body) => depth_of_statements(body).saturating_add(1),
        Stmt::Change(change) => depth_of_change(change).saturating_add(1),
        Stmt::Call(_, arguments) => depth_of_values(arguments).saturating_add(1),
        Stmt::If(test, body, other) => depth_of_condition(test)
            .max(depth_of_statements(body))
            .max(depth_of_statements(other))
            .saturating_add(1),
        Stmt::While(test, body) => depth_of_condition(test)
            .max(depth_of_statements(body))
            .saturating_add(1),
        Stmt::Do(body, test) => depth_of_statements(body)
            .max(depth_of_condition(test))
            .saturating_add(1),
        Stmt::For(head, body) => depth_of_head(head)
            .max(depth_of_statements(body))
            .saturating_add(1),
        Stmt::Switch(value, cases, Some(rest)) => depth_of_value(value)
            .max(depth_of_cases(cases))
            .max(depth_of_statements(rest))
            .saturating_add(1),
        Stmt::Switch(value, cases, None) => depth_of_value(value)
            .max(depth_of_cases(cases))
            .saturating_add(1),
        Stmt::Return(Some(value)) => depth_of_value(value).saturating_add(1),
        Stmt::Return(None) => 1,
        Stmt::Print(items) => depth_of_items(items).saturating_add(1),
        Stmt::Break => 1,
        Stmt::Continue => 1,
        Stmt::Quit => 1,
        Stmt::Rtrue => 1,
        Stmt::Rfalse => 1,
        Stmt::NewLine => 1,
        Stmt::Read(_, _) => 1,
    }
}

#[cycle(statement_depths)]
fn depth_of_statements(statements: &Vec<Stmt>) -> u32
    ensures { result ≡ counted (statements_depth (statements_of statements.now.items)) }
{
    let mut deepest: u32 = 0;
    for statement in statements {
        deepest = deepest.max(depth_of_statement(statement));
    }
    deepest
}

#[cycle(statement_depths)]
fn depth_of_cases(cases: &Vec<Case>) -> u32
    ensures { result ≡ counted (cases_depth (cases_of cases.now.items)) }
{
    let mut deepest: u32 = 0;
    for case in cases {
        deepest = deepest.max(depth_of_statements(&case.body));
    }
    deepest
}

/// How deep a routine is: the greatest depth of its statements, or 0 where it has none.
///
/// A node counts 1, and each statement, condition or expression directly inside another one adds 1.
/// Depths past 4,294,967,295 count as that number. docs/INFORM.md has examples.
pub fn depth(routine: &Routine) -> u32
    ensures { result ≡ counted (routine_depth (routine_of routine.now)) }
{
    depth_of_statements(&routine.body)
}
