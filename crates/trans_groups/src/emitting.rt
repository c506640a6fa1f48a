//! The routines of groups.
ghost use Rattle.std.specs.Prelude.{◌≡◌, ℕ, IfOk, List, [], ◌∷◌, map, codes, Some};
ghost use Rattle.std.specs.List.{list_all};
ghost use Rattle.inform_tree.specs.declared.conditions.Relation.TheVariants.{Eq};
ghost use Rattle.inform_tree.specs.Values as v;
ghost use Rattle.inform_tree.specs.Values.{expression_of};
ghost use Rattle.inform_tree.specs.Conditions as c;
ghost use Rattle.inform_tree.specs.Statements as s;
ghost use Rattle.inform_tree.specs.Statements.{statement_of, statements_of};
ghost use Rattle.inform_tree.specs.Programs as d;
ghost use Rattle.inform_tree.specs.Programs.{directive_of};
ghost use Rattle.scott_types.specs.Action.{is_zero, is_zero_action};
ghost use Rattle.scott_rules.specs.Actions.{goes_on_after};
ghost use Rattle.trans_specs.specs.Names.{line_name};
ghost use Rattle.trans_specs.specs.Lines.{call_value, call_statement, tail_body, group_parts};
ghost use Rattle.trans_groups.specs.Directives.{routine_of_head, heads_from, group_directives};

use adv_io::Memory;
use inform_codes::numbered;
use inform_tree::{Change, Cond, Directive, Expr, Name, Relation, Routine, Stmt};
use scott_types::action_lines::opcode_numbers;
use scott_types::{Action, Db};
use std::alloc::Global;

// The number of the opcode with which a line goes on.
const MORE: u32 = 73;

fn are_zeros(numbers: &[u32]) -> bool
    ensures { result ≡ list_all is_zero numbers.now }
{
    numbers.iter().all(|number| *number == 0)
}

// Whether the eight numbers of a line are zeros.
fn is_zero_action(action: &Action) -> bool
    ensures { result ≡ is_zero_action action.now }
{
    action.vocab == 0 && are_zeros(&action.conds) && are_zeros(&action.pairs)
}

fn goes_on_after(action: &Action) -> bool
    ensures { result ≡ goes_on_after action.now }
{
    opcode_numbers(action).iter().any(|number| *number == MORE)
}

// `line_k()`
fn tried(alloc: Global, line: usize) -> Result<Expr, Memory>
    ensures { IfOk result (λ call. expression_of call ≡ call_value (line_name line) []) }
{
    let name = Name::of(numbered(alloc, b"line_", line)?);
    Ok(Expr::Call(name, Vec::new(alloc)))
}

// `line_k();`
fn call(alloc: Global, line: usize) -> Result<Stmt, Memory>
    ensures { IfOk result (λ call. statement_of call ≡ call_statement (line_name line) []) }
{
    let name = Name::of(numbered(alloc, b"line_", line)?);
    Ok(Stmt::Call(name, Vec::new(alloc)))
}

// The calls of lines.
fn calls(alloc: Global, lines: &[usize]) -> Result<Vec<Stmt>, Memory>
    ensures { IfOk result (λ calls. map statement_of calls.items
        ≡ map (λ k. call_statement (line_name k) []) lines.now) }
{
    let mut calls = Vec::with_capacity(alloc, lines.len())?;
    for line in lines {
        calls.push(call(alloc, *line)?)?;
    }
    Ok(calls)
}

// What its head gave.
fn given(alloc: Global) -> Result<Name, Memory>
    ensures { IfOk result (λ name. name ≡ codes "r") }
{
    Ok(Name::of(Vec::from_slice(alloc, b"r")?))
}

// `if (r == 2) { .. }`
#[tactic(auto, using(inform_tree::proofs::Views::statement_of_if))]
fn after_head(alloc: Global, tail: Vec<Stmt>) -> Result<Stmt, Memory>
    ensures { IfOk result (λ choice. statement_of choice
        ≡ s.If (c.Compare Eq (v.Name (codes "r")) (v.Number 2)) (statements_of tail.items)
        s.NoStatements) }
{
    let test = Cond::Compare(Relation::Eq, Expr::Name(given(alloc)?), Expr::Number(2));
    Ok(Stmt::If(test, tail, Vec::new(alloc)))
}

// `r = line_k(); if (r == 2) { .. } return r;`
fn with_tail(alloc: Global, head: usize, tail: &[usize]) -> Result<Vec<Stmt>, Memory>
    ensures { IfOk result (λ body. map statement_of body.items ≡ tail_body head tail.now) }
{
    let trying = Stmt::Change(Change::Set(given(alloc)?, tried(alloc, head)?));
    let choice = after_head(alloc, calls(alloc, tail)?)?;
    let back = Stmt::Return(Some(Expr::Name(given(alloc)?)));
    Ok(vec![in alloc; trying, choice, back]?)
}

// `return line_k();`
fn alone(alloc: Global, head: usize) -> Result<Vec<Stmt>, Memory>
    ensures { IfOk result (λ body. map statement_of body.items
        ≡ s.Return (Some (call_value (line_name head) [])) ∷ []) }
{
    Ok(vec![in alloc; Stmt::Return(Some(tried(alloc, head)?))]?)
}

// The locals and the body of the routine of a head, where these lines are its tail.
fn parts(
    alloc: Global,
    goes_on: bool,
    head: usize,
    tail: &[usize],
) -> Result<(Vec<Name>, Vec<Stmt>), Memory>
    ensures locals { IfOk result (λ parts.
        parts.0.items ≡ (group_parts goes_on head tail.now).0) }
    ensures body { IfOk result (λ parts.
        map statement_of parts.1.items ≡ (group_parts goes_on head tail.now).1) }
{
    if !goes_on {
        return Ok((Vec::new(alloc), alone(alloc, head)?));
    }
    match tail {
        [] => Ok((Vec::new(alloc), alone(alloc, head)?)),
        [_first, _rest @ ..] => {
            let locals = vec![in alloc; given(alloc)?]?;
            Ok((locals, with_tail(alloc, head, tail)?))
        }
    }
}

// The routine of a head.
fn routine(alloc: Global, head: usize, action: &Action, tail: &[usize]) -> Result<Directive, Memory>
    ensures { IfOk result (λ directive. directive_of directive
        ≡ d.Routine (routine_of_head head action.now tail.now)) }
{
    let (locals, body) = parts(alloc, goes_on_after(action), head, tail)?;
    let name = Name::of(numbered(alloc, b"group_", head)?);
    Ok(Directive::Routine(Routine { name, locals, body }))
}

// The routines of the heads of lines, which are read from the last one on.
fn routines(alloc: Global, actions: &[Action]) -> Result<Vec<Directive>, Memory>
    ensures { IfOk result (λ directives. map directive_of directives.items
        ≡ heads_from 0 actions.now) }
{
    let mut all = Vec::new(alloc);
    let mut tail = Vec::new(alloc);
    for line in (0..actions.len()).rev() {
        let action = &actions[line];
        if action.vocab != 0 {
            tail.reverse();
            all.push(routine(alloc, line, action, &tail)?)?;
            tail.clear();
        } else if !is_zero_action(action) {
            tail.push(line)?;
        }
    }
    all.reverse();
    Ok(all)
}

/// The routine of each group of a game.
#[tactic(auto, using(crate::proofs::Heads::groups_are))]
pub fn groups(alloc: Global, db: &Db) -> Result<Vec<Directive>, Memory>
    ensures { IfOk result (λ directives. map directive_of directives.items
        ≡ group_directives db.now) }
{
    routines(alloc, db.actions())
}
