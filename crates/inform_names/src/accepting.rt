//! Acceptance of a program.
ghost use Rattle.std.specs.Prelude.{◌≡◌, Some, None, OnOk, IfOk, IfErr, IfSome};
ghost use Rattle.inform_tree.specs.Programs.{program_of};
ghost use Rattle.inform_names.specs.Faults.{fault_of};
ghost use Rattle.inform_names.specs.Refusals.{refused};
ghost use Rattle.inform_names.specs.Acceptance.{name_fault};
ghost use Rattle.inform_names.specs.Answers.{IsFirstFault};

use crate::accepted::Accepted;
use crate::directives::test_program;
use crate::faults::NameFault;
use crate::refusals::Refusal;
use crate::tables::Table;
use adv_io::Memory;
use inform_tree::{Name, Program, Width};
use std::alloc::Global;

fn copied(alloc: Global, name: &Name) -> Result<Name, Memory>
    ensures { IfOk result (λ copy. copy ≡ name.now) }
{
    let bytes = Vec::from_slice(alloc, name.bytes())?;
    Ok(Name::of(bytes))
}

// The fault that a refusal is, with a name of its own.
fn told(alloc: Global, refusal: Refusal<'_>) -> Result<NameFault, Memory>
    ensures { IfOk result (λ fault. fault_of fault ≡ Some (refused refusal.entry)) }
{
    match refusal {
        Refusal::Twice(name) => Ok(NameFault::Twice(copied(alloc, name)?)),
        Refusal::Missing(name) => Ok(NameFault::Missing(copied(alloc, name)?)),
        Refusal::Kind(name) => Ok(NameFault::Kind(copied(alloc, name)?)),
        Refusal::TooManyLocals(name) => Ok(NameFault::TooManyLocals(copied(alloc, name)?)),
        Refusal::TooManyArguments(name) => Ok(NameFault::TooManyArguments(copied(alloc, name)?)),
        Refusal::WideNumber(number) => Ok(NameFault::WideNumber(number)),
        Refusal::Size(name) => Ok(NameFault::Size(copied(alloc, name)?)),
        Refusal::Outside(name) => Ok(NameFault::Outside(copied(alloc, name)?)),
        Refusal::TooDeep(name) => Ok(NameFault::TooDeep(copied(alloc, name)?)),
        Refusal::MainLocals => Ok(NameFault::MainLocals),
        Refusal::NoMain => Ok(NameFault::NoMain),
    }
}

// The fault of a refusal, or want of memory.
fn told_or_memory(alloc: Global, refusal: Refusal<'_>) -> NameFault
    ensures { IfSome (fault_of result) (λ fault. fault ≡ refused refusal.entry) }
{
    match told(alloc, refusal) {
        Ok(fault) => fault,
        Err(_) => NameFault::Memory,
    }
}

// Tests the names of a program.
fn test_names(alloc: Global, program: &Program, width: Width) -> Result<(), NameFault>
    ensures none { OnOk result (name_fault width (program_of program.now) ≡ None) }
    ensures first { IfErr result (IsFirstFault width (program_of program.now)) }
{
    let Ok(table) = Table::of(alloc, width, program) else {
        return Err(NameFault::Memory);
    };
    match test_program(width, &table, program) {
        Ok(()) => Ok(()),
        Err(refusal) => Err(told_or_memory(alloc, refusal)),
    }
}

/// Accepts a program without a fault, where words have this width; else hands it back with its
/// first fault. docs/INFORM.md has the rules, and the order of the faults.
pub fn accept(
    alloc: Global,
    program: Program,
    width: Width,
) -> Result<Accepted, (Program, NameFault)>
    ensures program { IfOk result (λ accepted. accepted.program ≡ program) }
    ensures width { IfOk result (λ accepted. accepted.width ≡ width) }
    ensures none { OnOk result (name_fault width (program_of program) ≡ None) }
    ensures back { IfErr result (λ refused. refused.0 ≡ program) }
    ensures first { IfErr result (λ refused. IsFirstFault width (program_of program) refused.1) }
{
    match test_names(alloc, &program, width) {
        Ok(()) => Ok(Accepted::of(program, width)),
        Err(fault) => Err((program, fault)),
    }
}
