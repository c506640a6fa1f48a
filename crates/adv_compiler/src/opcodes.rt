//! What the opcodes of lines mean.
ghost use Rattle.std.specs.Prelude.{IfOk, OnOk, IsTrue};
ghost use Rattle.std.specs.List.{list_all};
ghost use Rattle.scott_types.specs.Limits.{is_natural};
ghost use Rattle.adv_compiler.specs.Faults.{Gives, Meets};
ghost use Rattle.adv_compiler.specs.Index.{known_in};
ghost use Rattle.adv_compiler.specs.Lines.{message_opcode, said, numbered, added, opcode, opcodes, no_opcodes, AreFew};

use crate::conditions::parameters;
use crate::faults::CompileFault;
use crate::pairs::Pairs;
use crate::tables::Tables;
use crate::values::{natural, value_of};
use arrayvec::ArrayVec;
use source_reader::{At, Op, Ref};

// The number of the opcode that says a message.
fn message_opcode(at: usize, message: i32) -> Result<u32, CompileFault>
    ensures { Meets (message_opcode at message) result }
{
    if message < 1 {
        return Err(CompileFault::Limit(at, i64::from(message)));
    }
    let message = message as u32;
    Ok(if message < 52 { message } else { message + 50 })
}

// Adds an opcode that says a message.
#[tactic(auto, using(crate::proofs::Binds::stands_then))]
fn said(tables: &Tables, pairs: Pairs, message: &At<Ref>) -> Result<Pairs, CompileFault>
    requires few { AreFew pairs }
    ensures meant { Meets (said (known_in tables.now) pairs message.now) result }
    ensures few { IfOk result AreFew }
{
    let written = value_of(&tables.messages, message.at, &message.what)?;
    let number = message_opcode(message.at, written)?;
    pairs.with_opcode(message.at, written, number)
}

// Adds an opcode by its number.
#[tactic(auto, using(crate::proofs::Binds::stands_then))]
fn numbered(pairs: Pairs, number: &At<i32>) -> Result<Pairs, CompileFault>
    requires few { AreFew pairs }
    ensures meant { Meets (numbered pairs number.now) result }
    ensures few { IfOk result AreFew }
{
    let natural = natural(number.at, number.what)?;
    pairs.with_opcode(number.at, number.what, natural)
}

// Adds an opcode, and its parameters where it has brackets.
#[tactic(auto, using(crate::proofs::Binds::stands_then))]
fn added(
    tables: &Tables,
    conds: &mut ArrayVec<u32, 5>,
    pairs: Pairs,
    at: usize,
    op: &Op,
) -> Result<Pairs, CompileFault>
    requires few { AreFew pairs }
    requires kept { IsTrue (list_all is_natural conds.old.items) }
    ensures meant { Gives
        (λ q. (conds.new.items, q))
        (added (known_in tables.now) conds.old.items pairs at op.now) result }
    ensures few { IfOk result AreFew }
    ensures kept { OnOk result (IsTrue (list_all is_natural conds.new.items)) }
{
    match op {
        Op::Say(message) => said(tables, pairs, message),
        Op::Number(number) => numbered(pairs, number),
        Op::Named(number) => pairs.with_opcode(at, i32::from(*number), u32::from(*number)),
        Op::With(number, written) => {
            let more = pairs.with_opcode(at, i32::from(*number), u32::from(*number))?;
            parameters(tables, conds, written.as_slice())?;
            Ok(more)
        }
    }
}

// Adds an opcode, of which there are four at most.
fn opcode(
    tables: &Tables,
    conds: &mut ArrayVec<u32, 5>,
    pairs: Pairs,
    op: &At<Op>,
) -> Result<Pairs, CompileFault>
    requires few { AreFew pairs }
    requires kept { IsTrue (list_all is_natural conds.old.items) }
    ensures meant { Gives
        (λ q. (conds.new.items, q))
        (opcode (known_in tables.now) conds.old.items pairs op.now) result }
    ensures few { IfOk result AreFew }
    ensures kept { OnOk result (IsTrue (list_all is_natural conds.new.items)) }
{
    if pairs.count >= 4 {
        return Err(CompileFault::TooManyOpcodes(op.at));
    }
    added(tables, conds, pairs, op.at, &op.what)
}

/// Adds the opcodes of a line.
pub fn opcodes(
    tables: &Tables,
    conds: &mut ArrayVec<u32, 5>,
    written: &[At<Op>],
) -> Result<Pairs, CompileFault>
    requires { IsTrue (list_all is_natural conds.old.items) }
    ensures meant { Gives
        (λ q. (conds.new.items, q))
        (opcodes (known_in tables.now) conds.old.items no_opcodes written.now) result }
    ensures few { IfOk result AreFew }
    ensures kept { OnOk result (IsTrue (list_all is_natural conds.new.items)) }
{
    let mut pairs = Pairs {
        first: 0,
        second: 0,
        count: 0,
    };
    for op in written {
        pairs = opcode(tables, conds, pairs, op)?;
    }
    Ok(pairs)
}
