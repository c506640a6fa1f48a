//! Codes: each call succeeds, and what it gives is the tree that was written.
use super::sizes::sizes;
use crate::expect;
use inform_codes::examples::{CALL, CARRIED, FORK, MESSAGE, NAMES, ROUTINES};
use inform_codes::{before, body, fork, numbered, routines};
use inform_tree::{Change, Cond, Expr, Head, Name, Relation, Stmt};

fn is(name: &Name, text: &str) -> bool {
    name.bytes() == text.as_bytes()
}

fn is_variable(value: &Expr, text: &str) -> bool {
    match value {
        Expr::Name(name) => is(name, text),
        _ => false,
    }
}

// Whether this is `i = 0`, `i <= 9` and `i++`.
fn is_head(head: &Head) -> bool {
    match (&head.first, &head.test, &head.next) {
        (
            Some(Change::Set(first, Expr::Number(0))),
            Some(Cond::Compare(Relation::Le, left, Expr::Number(9))),
            Some(Change::Inc(next)),
        ) => is(first, "i") && is_variable(left, "i") && is(next, "i"),
        _ => false,
    }
}

// What is done in each turn, if this is such a loop.
fn turn_of(statement: &Stmt) -> Option<&Vec<Stmt>> {
    match statement {
        Stmt::For(head, turn) if is_head(head) => Some(turn),
        _ => None,
    }
}

// What is done where `item-->i` is 255, if this says so, and what is done where it isn't.
fn branches_of(statement: &Stmt) -> Option<(&Vec<Stmt>, &Vec<Stmt>)> {
    match statement {
        Stmt::If(
            Cond::Compare(Relation::Eq, Expr::Entry(array, true, index), Expr::Number(255)),
            body,
            other,
        ) if is(array, "item") && is_variable(index, "i") => Some((body, other)),
        _ => None,
    }
}

fn counts_up(statement: &Stmt) -> bool {
    match statement {
        Stmt::Change(Change::Inc(name)) => is(name, "n"),
        _ => false,
    }
}

fn returns_count(statement: &Stmt) -> bool {
    match statement {
        Stmt::Return(Some(value)) => is_variable(value, "n"),
        _ => false,
    }
}

// Whether these are the statements that count the items that are carried.
fn counts_carried(grown: &[Stmt]) -> bool {
    let [counting, last] = grown else {
        return false;
    };
    let Some([choice]) = turn_of(counting).map(|turn| turn.as_slice()) else {
        return false;
    };
    let Some((body, other)) = branches_of(choice) else {
        return false;
    };
    let [once] = body.as_slice() else {
        return false;
    };
    counts_up(once) && other.is_empty() && returns_count(last)
}

#[test]
fn carried_is_grown(rt: HostRuntime) {
    let grown = body(rt.alloc(), &NAMES, &[9], &CARRIED).expect(&rt, "memory");
    expect!(rt; counts_carried(&grown));
}

#[test]
fn tables_are_grown(rt: HostRuntime) {
    let table = routines(rt.alloc(), &NAMES, &[9], &ROUTINES).expect(&rt, "memory");
    expect!(rt; sizes(&rt, &table).as_slice() == [2, 3].as_slice());
}

#[test]
fn calls_succeed(rt: HostRuntime) {
    let alloc = rt.alloc();
    let name = numbered(alloc, b"msg_", 12).expect(&rt, "memory");
    expect!(rt; name.as_slice() == b"msg_12".as_slice());
    let names = [name.as_slice()];
    let message = body(alloc, &names, &[], &MESSAGE).expect(&rt, "memory");
    expect!(rt; message.len() == 2);
    let called = before(alloc, &names, &[], &CALL, message).expect(&rt, "memory");
    expect!(rt; called.len() == 3);
    let branches = (called, Vec::new(alloc));
    let forked = fork(alloc, &names, &[7], &FORK, branches, Vec::new(alloc));
    expect!(rt; forked.expect(&rt, "memory").len() == 1);
}
