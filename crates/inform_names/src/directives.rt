//! What is wrong in directives and programs.
ghost use Rattle.std.specs.Prelude.{◌≡◌, ◌+◌, ◌≤◌, IfOk, map};
ghost use Rattle.std.specs.Option.{option_or};
ghost use Rattle.inform_tree.specs.Programs.{directive_of, program_of, routine_of};
ghost use Rattle.inform_names.specs.declared.limits.TheConstants.{ENTRY_LIMIT};
ghost use Rattle.inform_names.specs.Demands.{constant_demands};
ghost use Rattle.inform_names.specs.Meanings.{earlier, entry_count, directive_entries};
ghost use Rattle.inform_names.specs.Faults.{first_of};
ghost use Rattle.inform_names.specs.Refusals.{found};
ghost use Rattle.inform_names.specs.Places.{first_fault};
ghost use Rattle.inform_names.specs.Tables.{found_in};
ghost use Rattle.inform_names.specs.Acceptance.{constant_scope, twice_fault, size_fault, is_main, locals_fault, routine_faults, directive_fault, directives_fault, main_fault};

use crate::enclosures::Enclosure;
use crate::limits::{DEEPEST, ENTRY_LIMIT, LENGTH_LIMIT, LOCAL_LIMIT};
use crate::meanings::{Kind, Meaning};
use crate::places::{Scope, is_one_of, test_number};
use crate::refusals::{Refusal, refuse_if};
use crate::tables::{Table, name_of};
use inform_tree::{Const, Directive, Name, Program, Routine, Width, depth};

// What a name means, if its directive stands before number `at`.
fn earlier(at: usize, meaning: Option<Meaning>) -> Option<Meaning>
    ensures { result ≡ earlier at meaning }
{
    match meaning {
        Some(meaning) if meaning.at < at => Some(meaning),
        _ => None,
    }
}

// The value of constant number `at`, which uses the directives before it alone.
fn test_constant_directive<'a>(
    width: Width,
    table: &Table<'a>,
    at: usize,
    name: &'a Name,
    value: &'a Const,
) -> Result<(), Refusal<'a>>
    ensures { found result ≡ first_fault (constant_scope width (found_in table.now) at name.now)
        (constant_demands value.now) }
{
    match value {
        Const::Number(number) => test_number(width, *number),
        Const::Char(_) => Ok(()),
        Const::Name(other) => match earlier(at, table.find(other)) {
            None => Err(Refusal::Missing(other)),
            Some(meaning) => refuse_if(!meaning.kind.is_constant(), Refusal::Kind(other)),
        },
        Const::Minus(number) => test_number(width, *number),
    }
}

// The length of an array, after so many entries of the arrays before. Gives the entries with it.
fn test_size<'a>(total: u32, name: &'a Name, length: Option<i64>) -> Result<u32, Refusal<'a>>
    requires { total ≤ ENTRY_LIMIT }
    ensures found { found result ≡ size_fault total name.now length }
    ensures total { IfOk result (λ n. n ≡ total + entry_count length) }
    ensures few { IfOk result (λ n. n ≤ ENTRY_LIMIT) }
{
    let Some(length) = length else {
        return Ok(total);
    };
    if length < 1 || i64::from(LENGTH_LIMIT) < length {
        return Err(Refusal::Size(name));
    }
    let total = total + length as u32;
    if ENTRY_LIMIT < total {
        return Err(Refusal::Size(name));
    }
    Ok(total)
}

// The locals of a routine.
fn test_locals<'a>(routine: &'a Name, locals: &'a [Name]) -> Result<(), Refusal<'a>>
    ensures { found result ≡ locals_fault routine.now locals.now 0 locals.now }
{
    for (number, local) in locals.iter().enumerate() {
        if is_one_of(local, &locals[..number]) {
            return Err(Refusal::Twice(local));
        }
        if LOCAL_LIMIT <= number {
            return Err(Refusal::TooManyLocals(routine));
        }
    }
    Ok(())
}

fn is_main(name: &Name) -> bool
    ensures { result ≡ is_main name.now }
{
    name.bytes() == b"main".as_slice()
}

// A routine, after its name was tested for another directive.
fn test_routine<'a>(
    width: Width,
    table: &Table<'a>,
    routine: &'a Routine,
) -> Result<(), Refusal<'a>>
    ensures { found result
        ≡ first_of (routine_faults width (found_in table.now) (routine_of routine.now)) }
{
    refuse_if(DEEPEST < depth(routine), Refusal::TooDeep(&routine.name))?;
    refuse_if(
        is_main(&routine.name) && 0 < routine.locals.len(),
        Refusal::MainLocals,
    )?;
    test_locals(&routine.name, &routine.locals)?;
    let scope = Scope {
        width,
        table,
        directive: &routine.name,
        locals: &routine.locals,
    };
    scope.test_statements(Enclosure::none(), &routine.body)?;
    Ok(())
}

// Directive number `at` isn't the first of its name.
fn test_twice<'a>(table: &Table<'a>, at: usize, name: &'a Name) -> Result<(), Refusal<'a>>
    ensures { found result ≡ twice_fault (found_in table.now) at name.now }
{
    refuse_if(
        earlier(at, table.find(name)).is_some(),
        Refusal::Twice(name),
    )
}

// Directive number `at`, after so many entries of the arrays before. Gives the entries with it.
fn test_directive<'a>(
    width: Width,
    table: &Table<'a>,
    at: usize,
    total: u32,
    directive: &'a Directive,
) -> Result<u32, Refusal<'a>>
    requires { total ≤ ENTRY_LIMIT }
    ensures found { found result ≡ directive_fault width (found_in table.now) at total
        (directive_of directive.now) }
    ensures total { IfOk result (λ n. n ≡ total
        + directive_entries width (found_in table.now) (directive_of directive.now)) }
    ensures few { IfOk result (λ n. n ≤ ENTRY_LIMIT) }
{
    let name = name_of(directive);
    test_twice(table, at, name)?;
    let scope = Scope {
        width,
        table,
        directive: name,
        locals: &[],
    };
    match directive {
        Directive::Constant(name, value) => {
            test_constant_directive(width, table, at, name, value)?;
            Ok(total)
        }
        Directive::Global(_, value) => {
            scope.test_constant_if_any(value)?;
            Ok(total)
        }
        Directive::Array(name, _, entries) => {
            let total = test_size(total, name, table.array_length(width, entries))?;
            scope.test_constants(entries)?;
            Ok(total)
        }
        Directive::Routine(routine) => {
            test_routine(width, table, routine)?;
            Ok(total)
        }
    }
}

// All directives, one after the other.
fn test_directives<'a>(
    width: Width,
    table: &Table<'a>,
    program: &'a Program,
) -> Result<(), Refusal<'a>>
    ensures { found result
        ≡ directives_fault width (found_in table.now) 0 0 (program_of program.now) }
{
    let mut total = 0;
    for (at, directive) in program.directives.iter().enumerate() {
        total = test_directive(width, table, at, total, directive)?;
    }
    Ok(())
}

// The program has a routine `main`.
fn test_main<'a>(table: &Table<'a>) -> Result<(), Refusal<'a>>
    ensures { found result ≡ main_fault (found_in table.now) }
{
    match table.find_bytes(b"main") {
        Some(
            Meaning {
                at: _,
                kind: Kind::Routine(_),
            },
        ) => Ok(()),
        _ => Err(Refusal::NoMain),
    }
}

/// A program, whose names are in the table.
pub fn test_program<'a>(
    width: Width,
    table: &Table<'a>,
    program: &'a Program,
) -> Result<(), Refusal<'a>>
    ensures { found result ≡ option_or
        (directives_fault width (found_in table.now) 0 0 (program_of program.now))
        (main_fault (found_in table.now)) }
{
    test_directives(width, table, program)?;
    test_main(table)
}
