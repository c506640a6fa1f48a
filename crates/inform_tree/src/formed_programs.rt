//! Whether a program is well formed.
ghost use Rattle.std.specs.Prelude.{◌≡◌, map};
ghost use Rattle.std.specs.List.{list_all};
ghost use Rattle.inform_tree.specs.Programs.{directive_of, program_of, routine_of};
ghost use Rattle.inform_tree.specs.Words.{is_name};
ghost use Rattle.inform_tree.specs.Formed.{is_formed_constant, are_formed_entries, is_formed_routine, is_formed_directive, is_well_formed};

use crate::formed_statements::statements_are_formed;
use crate::formed_values::{constant_is_formed, constant_is_formed_if_any, name_is_formed};
use crate::names::Name;
use crate::programs::{Directive, Program, Routine};
use crate::statement_depths::depth;
use crate::values::Const;

/// The greatest depth of a routine of a well-formed program.
pub const DEPTH_LIMIT: u32 = 64;

fn names_are_formed(names: &[Name]) -> bool
    ensures { result ≡ list_all is_name names.now }
{
    names.iter().all(|name| name_is_formed(name))
}

fn constants_are_formed(constants: &[Const]) -> bool
    ensures { result ≡ list_all is_formed_constant constants.now }
{
    constants
        .iter()
        .all(|constant| constant_is_formed(constant))
}

// The length or the entries of an array: there is one.
fn entries_are_formed(entries: &[Const]) -> bool
    ensures { result ≡ are_formed_entries entries.now }
{
    0 < entries.len() && constants_are_formed(entries)
}

fn routine_is_formed(routine: &Routine) -> bool
    ensures { result ≡ is_formed_routine (routine_of routine.now) }
{
    name_is_formed(&routine.name)
        && names_are_formed(&routine.locals)
        && depth(routine) <= DEPTH_LIMIT
        && statements_are_formed(&routine.body)
}

fn directive_is_formed(directive: &Directive) -> bool
    ensures { result ≡ is_formed_directive (directive_of directive.now) }
{
    match directive {
        Directive::Constant(name, value) => name_is_formed(name) && constant_is_formed(value),
        Directive::Global(name, value) => name_is_formed(name) && constant_is_formed_if_any(value),
        Directive::Array(name, _, entries) => name_is_formed(name) && entries_are_formed(entries),
        Directive::Routine(routine) => routine_is_formed(routine),
    }
}

impl Program {
    /// Whether the program is well formed, which is what it takes to be printed. docs/INFORM.md has
    /// the rules.
    pub fn well_formed(&self) -> bool
        ensures { result ≡ is_well_formed (program_of self.now) }
    {
        for directive in &self.directives {
            if !directive_is_formed(directive) {
                return false;
            }
        }
        true
    }
}
