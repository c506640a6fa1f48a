//! What the conditions of lines mean, and the parameters of opcodes, which are conditions of code
//! 0.
ghost use Rattle.std.specs.Prelude.{OnOk, IsTrue};
ghost use Rattle.std.specs.List.{list_all};
ghost use Rattle.scott_types.specs.Limits.{is_natural};
ghost use Rattle.adv_compiler.specs.Faults.{Gives};
ghost use Rattle.adv_compiler.specs.Index.{known_in};
ghost use Rattle.adv_compiler.specs.Lines.{condition, conditions, parameter, parameters};

use crate::faults::CompileFault;
use crate::tables::Tables;
use crate::values::{packed_condition, thing_of};
use arrayvec::ArrayVec;
use source_reader::{At, Cond, Ref};

// Adds a condition.
#[tactic(auto, using(crate::proofs::Binds::stands_then))]
fn condition(
    tables: &Tables,
    conds: &mut ArrayVec<u32, 5>,
    cond: &At<Cond>,
) -> Result<(), CompileFault>
    requires { IsTrue (list_all is_natural conds.old.items) }
    ensures meant { Gives
        (λ u. conds.new.items) (condition (known_in tables.now) conds.old.items cond.now) result }
    ensures kept { OnOk result (IsTrue (list_all is_natural conds.new.items)) }
{
    if conds.is_full() {
        return Err(CompileFault::TooManyConditions(cond.at));
    }
    let argument = thing_of(tables, cond.what.arg.at, &cond.what.arg.what)?;
    let packed = packed_condition(cond.what.arg.at, cond.what.code, argument)?;
    conds.push(packed);
    Ok(())
}

// Adds a parameter of an opcode with brackets, as a condition of code 0.
#[tactic(auto, using(crate::proofs::Binds::stands_then))]
fn parameter(
    tables: &Tables,
    conds: &mut ArrayVec<u32, 5>,
    written: &At<Ref>,
) -> Result<(), CompileFault>
    requires { IsTrue (list_all is_natural conds.old.items) }
    ensures meant { Gives
        (λ u. conds.new.items)
        (parameter (known_in tables.now) conds.old.items written.now) result }
    ensures kept { OnOk result (IsTrue (list_all is_natural conds.new.items)) }
{
    let argument = thing_of(tables, written.at, &written.what)?;
    if conds.is_full() {
        return Err(CompileFault::TooManyConditions(written.at));
    }
    let packed = packed_condition(written.at, 0, argument)?;
    conds.push(packed);
    Ok(())
}

/// Adds the conditions of a line.
pub fn conditions(
    tables: &Tables,
    conds: &mut ArrayVec<u32, 5>,
    written: &[At<Cond>],
) -> Result<(), CompileFault>
    requires { IsTrue (list_all is_natural conds.old.items) }
    ensures meant { Gives
        (λ u. conds.new.items)
        (conditions (known_in tables.now) conds.old.items written.now) result }
    ensures kept { OnOk result (IsTrue (list_all is_natural conds.new.items)) }
{
    for cond in written {
        condition(tables, conds, cond)?;
    }
    Ok(())
}

/// Adds the parameters of an opcode with brackets.
pub fn parameters(
    tables: &Tables,
    conds: &mut ArrayVec<u32, 5>,
    written: &[At<Ref>],
) -> Result<(), CompileFault>
    requires { IsTrue (list_all is_natural conds.old.items) }
    ensures meant { Gives
        (λ u. conds.new.items)
        (parameters (known_in tables.now) conds.old.items written.now) result }
    ensures kept { OnOk result (IsTrue (list_all is_natural conds.new.items)) }
{
    for one in written {
        parameter(tables, conds, one)?;
    }
    Ok(())
}
