//! The body of the routine of a line: its tests, its opcodes and its value.
ghost use Rattle.std.specs.Prelude.{◌≡◌, ◌++◌, IfOk, map, filter};
ghost use Rattle.inform_tree.specs.Statements.{statement_of};
ghost use Rattle.scott_types.specs.Opcode.{uses};
ghost use Rattle.trans_specs.specs.Lines.{condition_test, is_test, message_call, get_statements, call_statement, next_parameters, all_statements, line_value, line_body};
ghost use Rattle.trans_specs.specs.Names.{opcode_name};
ghost use Rattle.scott_rules.specs.Actions.{goes_on_after};

use crate::calls::{left, name, next};
use adv_io::Memory;
use inform_tree::{Cond, Expr, Stmt};
use scott_types::action_lines::{argument_of, condition_code, opcode_numbers, parameters};
use scott_types::{Action, Db, Opcode};
use std::alloc::Global;

/// The number of the opcode that takes an item where the hands aren't full.
pub const GET: usize = 52;

// The number of the opcode with which a line goes on.
const MORE: u32 = 73;

// `if (~~(cond_c(a))) rfalse;`
#[tactic(auto, using(inform_tree::proofs::Views::statement_of_if))]
fn test(alloc: Global, packed: u32) -> Result<Stmt, Memory>
    ensures { IfOk result (λ test. statement_of test ≡ condition_test packed) }
{
    let argument = next(alloc, 1, &[argument_of(packed)])?;
    let holds = Expr::Call(
        name(alloc, b"cond_", usize::from(condition_code(packed)))?,
        argument,
    );
    let fails = Cond::Not(Box::new(alloc, Cond::Nonzero(holds))?);
    let mut refused = Vec::with_capacity(alloc, 1)?;
    refused.push(Stmt::Rfalse)?;
    Ok(Stmt::If(fails, refused, Vec::new(alloc)))
}

// The tests of these conditions, and then what comes after them.
fn tests(alloc: Global, conds: &[u32], after: Vec<Stmt>) -> Result<Vec<Stmt>, Memory>
    ensures { IfOk result (λ body. map statement_of body.items
        ≡ map condition_test (filter is_test conds.now) ++ map statement_of after.items) }
{
    match conds {
        [] => Ok(after),
        [packed, others @ ..] => {
            let mut body = tests(alloc, others, after)?;
            if condition_code(*packed) != 0 {
                body.insert(0, test(alloc, *packed)?)?;
            }
            Ok(body)
        }
    }
}

// `op_n(p, q);`
fn call(alloc: Global, number: u32, opcode: Opcode, params: &[u32]) -> Result<Stmt, Memory>
    ensures { IfOk result (λ call. statement_of call ≡ call_statement (opcode_name number)
        (next_parameters (uses opcode) params.now)) }
{
    let values = next(alloc, opcode.uses(), params)?;
    Ok(Stmt::Call(name(alloc, b"op_", number as usize)?, values))
}

// A call of the routine of a message, where there is one.
fn said(alloc: Global, db: &Db, message: u32, after: Vec<Stmt>) -> Result<Vec<Stmt>, Memory>
    ensures { IfOk result (λ body. map statement_of body.items
        ≡ message_call db.now message ++ map statement_of after.items) }
{
    let mut body = after;
    if (message as usize) < db.messages().len() {
        let saying = Stmt::Call(name(alloc, b"msg_", message as usize)?, Vec::new(alloc));
        body.insert(0, saying)?;
    }
    Ok(body)
}

// A get and what follows where it took its parameter, and where it left it. One that nothing
// follows is called.
#[tactic(auto, using(inform_tree::proofs::Views::statement_of_if))]
fn got(
    alloc: Global,
    params: &[u32],
    taken: Vec<Stmt>,
    refused: Vec<Stmt>,
) -> Result<Vec<Stmt>, Memory>
    ensures { IfOk result (λ body. map statement_of body.items
        ≡ get_statements params.now (map statement_of taken.items)
        (map statement_of refused.items)) }
{
    let took = name(alloc, b"op_", GET)?;
    let item = next(alloc, 1, params)?;
    let mut body = Vec::with_capacity(alloc, 1)?;
    if taken.is_empty() && refused.is_empty() {
        body.push(Stmt::Call(took, item))?;
        return Ok(body);
    }
    let test = Cond::Nonzero(Expr::Call(took, item));
    body.push(Stmt::If(test, taken, refused))?;
    Ok(body)
}

// The statements of opcodes by their numbers.
fn opcodes(alloc: Global, db: &Db, numbers: &[u32], params: &[u32]) -> Result<Vec<Stmt>, Memory>
    ensures { IfOk result (λ body. map statement_of body.items
        ≡ all_statements db.now numbers.now params.now) }
{
    match numbers {
        [] => Ok(Vec::new(alloc)),
        [number, others @ ..] => match Opcode::of(*number) {
            Opcode::Nothing | Opcode::More => opcodes(alloc, db, others, params),
            Opcode::Say(message) => {
                let after = opcodes(alloc, db, others, params)?;
                said(alloc, db, message, after)
            }
            Opcode::Get => {
                let taken = opcodes(alloc, db, others, left(params, 1))?;
                let refused = opcodes(alloc, db, others, params)?;
                got(alloc, params, taken, refused)
            }
            opcode => {
                let mut body = opcodes(alloc, db, others, left(params, opcode.uses()))?;
                body.insert(0, call(alloc, *number, opcode, params)?)?;
                Ok(body)
            }
        },
    }
}

fn goes_on_after(action: &Action) -> bool
    ensures { result ≡ goes_on_after action.now }
{
    opcode_numbers(action).iter().any(|number| *number == MORE)
}

// 2 where the line goes on, and else 1.
fn value(action: &Action) -> u32
    ensures { result ≡ line_value action.now }
{
    if goes_on_after(action) { 2 } else { 1 }
}

/// The body of a line.
pub fn body(alloc: Global, db: &Db, action: &Action) -> Result<Vec<Stmt>, Memory>
    ensures { IfOk result (λ body. map statement_of body.items
        ≡ line_body db.now action.now) }
{
    let mut body = opcodes(alloc, db, &opcode_numbers(action), &parameters(action))?;
    body.push(Stmt::Return(Some(Expr::Number(value(action)))))?;
    tests(alloc, &action.conds, body)
}
