//! Whether statements are well formed.
ghost use Rattle.std.specs.Prelude.{◌≡◌, map};
ghost use Rattle.std.specs.List.{list_all};
ghost use Rattle.inform_tree.specs.Values.{expression_of};
ghost use Rattle.inform_tree.specs.Statements.{assignment_of, assignment_if_any, condition_if_any, print_item_of, statement_of, statements_of, cases_of};
ghost use Rattle.inform_tree.specs.Formed.{is_formed_if_any, are_formed_both, is_formed_condition, is_formed_assignment, is_formed_item, are_formed_items, is_formed_choice, are_formed_choices, is_formed_head_of, is_formed_statement, are_formed_statements, are_formed_cases};

use crate::conditions::Cond;
use crate::formed_conditions::condition_is_formed;
use crate::formed_values::{
    constant_is_formed, constant_is_formed_if_any, name_is_formed, value_is_formed,
    values_are_formed,
};
use crate::statements::{Case, Change, Head, Item, Stmt};
use crate::values::{Const, Expr};
use crate::words::is_text;

// ---- changes, items of `print` and choices

fn entry_is_formed(index: &Expr, value: &Expr) -> bool
    ensures { result ≡ are_formed_both (expression_of index.now) (expression_of value.now) }
{
    value_is_formed(index) && value_is_formed(value)
}

fn change_is_formed(change: &Change) -> bool
    ensures { result ≡ is_formed_assignment (assignment_of change.now) }
{
    match change {
        Change::Set(name, value) => name_is_formed(name) && value_is_formed(value),
        Change::SetEntry(name, _, index, value) => {
            name_is_formed(name) && entry_is_formed(index, value)
        }
        Change::Inc(name) => name_is_formed(name),
        Change::Dec(name) => name_is_formed(name),
    }
}

fn item_is_formed(item: &Item) -> bool
    ensures { result ≡ is_formed_item (print_item_of item.now) }
{
    match item {
        Item::Text(text) => is_text(text.bytes()),
        Item::Value(value) => value_is_formed(value),
        Item::Char(value) => value_is_formed(value),
    }
}

fn all_items_formed(items: &[Item]) -> bool
    ensures { result ≡ list_all is_formed_item (map print_item_of items.now) }
{
    for item in items {
        if !item_is_formed(item) {
            return false;
        }
    }
    true
}

// The items of a `print`: there is one.
fn items_are_formed(items: &[Item]) -> bool
    ensures { result ≡ are_formed_items (map print_item_of items.now) }
{
    0 < items.len() && all_items_formed(items)
}

fn choice_is_formed(choice: &(Const, Option<Const>)) -> bool
    ensures { result ≡ is_formed_choice choice.now }
{
    constant_is_formed(&choice.0) && constant_is_formed_if_any(&choice.1)
}

fn all_choices_formed(choices: &[(Const, Option<Const>)]) -> bool
    ensures { result ≡ list_all is_formed_choice choices.now }
{
    choices.iter().all(|choice| choice_is_formed(choice))
}

// The choices of a case: there is one.
fn choices_are_formed(choices: &[(Const, Option<Const>)]) -> bool
    ensures { result ≡ are_formed_choices choices.now }
{
    0 < choices.len() && all_choices_formed(choices)
}

// ---- what stands in the brackets of a `for`

fn change_is_formed_if_any(change: &Option<Change>) -> bool
    ensures { result ≡ is_formed_if_any is_formed_assignment (assignment_if_any change.now) }
{
    match change {
        Some(change) => change_is_formed(change),
        None => true,
    }
}

fn test_is_formed_if_any(test: &Option<Cond>) -> bool
    ensures { result ≡ is_formed_if_any is_formed_condition (condition_if_any test.now) }
{
    match test {
        Some(test) => condition_is_formed(test),
        None => true,
    }
}

fn head_is_formed(head: &Head) -> bool
    ensures { result ≡ is_formed_head_of head.now }
{
    change_is_formed_if_any(&head.first)
        && test_is_formed_if_any(&head.test)
        && change_is_formed_if_any(&head.next)
}

// ---- statements

#[cycle(formed_statements)]
fn statement_is_formed(statement: &Stmt) -> bool
    ensures { result ≡ is_formed_statement (statement_of statement.now) }
{
    match statement {
        Stmt::Block(body) => statements_are_formed(body),
        Stmt::Change(change) => change_is_formed(change),
        Stmt::Call(name, arguments) => name_is_formed(name) && values_are_formed(arguments),
        Stmt::If(test, body, other) => {
            condition_is_formed(test) && statements_are_formed(body) && statements_are_formed(other)
        }
        Stmt::While(test, body) => condition_is_formed(test) && statements_are_formed(body),
        Stmt::Do(body, test) => statements_are_formed(body) && condition_is_formed(test),
        Stmt::For(head, body) => head_is_formed(head) && statements_are_formed(body),
        Stmt::Switch(value, cases, Some(rest)) => {
            value_is_formed(value) && cases_are_formed(cases) && statements_are_formed(rest)
        }
        Stmt::Switch(value, cases, None) => value_is_formed(value) && cases_are_formed(cases),
        Stmt::Return(Some(value)) => value_is_formed(value),
        Stmt::Print(items) => items_are_formed(items),
        Stmt::Read(line, words) => name_is_formed(line) && name_is_formed(words),
        Stmt::Return(None) => true,
        Stmt::Empty => true,
        Stmt::Break => true,
        Stmt::Continue => true,
        Stmt::Quit => true,
        Stmt::Rtrue => true,
        Stmt::Rfalse => true,
        Stmt::NewLine => true,
    }
}

#[cycle(formed_statements)]
pub fn statements_are_formed(statements: &Vec<Stmt>) -> bool
    ensures { result ≡ are_formed_statements (statements_of statements.now.items) }
{
    for statement in statements {
        if !statement_is_formed(statement) {
            return false;
        }
    }
    true
}

#[cycle(formed_statements)]
fn cases_are_formed(cases: &Vec<Case>) -> bool
    ensures { result ≡ are_formed_cases (cases_of cases.now.items) }
{
    for case in cases {
        if !choices_are_formed(&case.choices) {
            return false;
        }
        if !statements_are_formed(&case.body) {
            return false;
        }
    }
    true
}
