//! Simplifying a program.
ghost use Rattle.std.specs.Prelude.{◌≡◌, IfOk};
ghost use Rattle.inform_tree.specs.Programs as d;
ghost use Rattle.inform_tree.specs.Programs.{routine_of, directive_of, program_of};
ghost use Rattle.inform_simplify.specs.Simplifying.{DirectiveShortens, ProgramShortens};
ghost use Rattle.inform_simplify.specs.Laws.{IsSimpler};

use crate::laws::shortened_is_simpler;
use crate::simplifying::simplified;
use adv_io::Memory;
use inform_names::Accepted;
use inform_tree::{Directive, Name, Program, Routine, Width};
use std::alloc::Global;
use std::mem::replace;

fn simplified_routine(alloc: Global, width: Width, old: Routine) -> Result<Routine, Memory>
    ensures { IfOk result (λ new. DirectiveShortens width (d.Routine (routine_of old))
        (d.Routine (routine_of new))) }
{
    let mut routine = old;
    let body = simplified(alloc, width, replace(&mut routine.body, Vec::new(alloc)))?;
    routine.body = body;
    Ok(routine)
}

// What is left in the place of a routine that is moved.
fn no_routine(alloc: Global) -> Routine {
    Routine {
        name: Name::of(Vec::new(alloc)),
        locals: Vec::new(alloc),
        body: Vec::new(alloc),
    }
}

fn simplified_directive(alloc: Global, width: Width, old: Directive) -> Result<Directive, Memory>
    ensures { IfOk result (λ new. DirectiveShortens width (directive_of old) (directive_of new)) }
{
    let mut directive = old;
    match &mut directive {
        Directive::Routine(routine) => {
            let moved = replace(routine, no_routine(alloc));
            Ok(Directive::Routine(simplified_routine(alloc, width, moved)?))
        }
        Directive::Constant(_, _) => Ok(directive),
        Directive::Global(_, _) => Ok(directive),
        Directive::Array(_, _, _) => Ok(directive),
    }
}

fn simplified_program(alloc: Global, width: Width, old: Program) -> Result<Program, Memory>
    ensures { IfOk result (λ new. ProgramShortens width (program_of old) (program_of new)) }
{
    let mut kept = Vec::new(alloc);
    for directive in old.directives {
        kept.push(simplified_directive(alloc, width, directive)?)?;
    }
    Ok(Program { directives: kept })
}

/// Simplifies an accepted program, at any depth and in one walk. What is given back is accepted at
/// the same width; memory may run out, and nothing else goes wrong. docs/INFORM.md says what is
/// simplified.
pub fn simplify(alloc: Global, program: Accepted) -> Result<Accepted, Memory>
    ensures width { IfOk result (λ new. new.width ≡ program.width) }
    ensures shortens { IfOk result (λ new. ProgramShortens program.width
        (program_of program.program) (program_of new.program)) }
    ensures simpler { IfOk result (λ new. IsSimpler program.width
        (program_of program.program) (program_of new.program)) }
{
    shortened_is_simpler();
    let width = program.width();
    let new = simplified_program(alloc, width, program.into_program())?;
    Ok(Accepted::of(new, width))
}
