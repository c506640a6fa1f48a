//! What is wrong at one place.
ghost use Rattle.std.specs.Prelude.{◌≡◌};
ghost use Rattle.inform_names.specs.Faults.{wide_number, fault_if};
ghost use Rattle.inform_names.specs.Words.{is_wide};
ghost use Rattle.inform_names.specs.Refusals.{found};
ghost use Rattle.inform_names.specs.Places.{is_one_of, arguments_fault};

use crate::limits::ARGUMENT_LIMIT;
use crate::meanings::Kind;
use crate::refusals::{Refusal, refuse_if};
use crate::tables::Table;
use inform_tree::{Name, Width};

/// Where a place stands: the width, the names that are known there, and the directive with its
/// locals.
#[derive(Clone, Copy)]
pub struct Scope<'t, 'a> {
    pub width: Width,
    pub table: &'t Table<'a>,
    pub directive: &'a Name,
    pub locals: &'a [Name],
}

/// Whether a name is one of these.
pub fn is_one_of(name: &Name, names: &[Name]) -> bool
    ensures { result ≡ is_one_of name.now names.now }
{
    for other in names {
        if name.bytes() == other.bytes() {
            return true;
        }
    }
    false
}

fn is_wide(width: Width, number: u32) -> bool
    ensures { result ≡ is_wide width number }
{
    match width {
        Width::W16 => 65535 < number,
        Width::W32 => false,
    }
}

/// A number that isn't too wide stands here.
pub fn test_number<'a>(width: Width, number: u32) -> Result<(), Refusal<'a>>
    ensures { found result ≡ fault_if (is_wide width number) (wide_number number) }
{
    refuse_if(is_wide(width, number), Refusal::WideNumber(number))
}

// What is of this kind is called with so many arguments.
fn test_arguments<'a>(name: &'a Name, count: usize, kind: Kind) -> Result<(), Refusal<'a>>
    ensures { found result ≡ arguments_fault name.now count kind }
{
    match kind {
        Kind::Routine(locals) => refuse_if(
            ARGUMENT_LIMIT < count || locals < count,
            Refusal::TooManyArguments(name),
        ),
        Kind::Constant(_) => Err(Refusal::Kind(name)),
        Kind::Global => Err(Refusal::Kind(name)),
        Kind::Array(_) => Err(Refusal::Kind(name)),
    }
}

impl<'t, 'a> Scope<'t, 'a> {
    ghost use Rattle.inform_names.specs.Demands.{Constant, Value, Variable, Array, Call, Leave};
    ghost use Rattle.inform_names.specs.Places.{fault_at, is_local};
    ghost use Rattle.inform_names.specs.Scopes.{scope_of};

    fn is_local(&self, name: &Name) -> bool
        ensures { result ≡ is_local (scope_of self.now) name.now }
    {
        is_one_of(name, self.locals)
    }

    /// The name of a constant stands here.
    pub fn test_constant(&self, name: &'a Name) -> Result<(), Refusal<'a>>
        ensures { found result ≡ fault_at (scope_of self.now) (Constant name.now) }
    {
        if self.is_local(name) {
            return Err(Refusal::Kind(name));
        }
        match self.table.find(name) {
            None => Err(Refusal::Missing(name)),
            Some(meaning) => refuse_if(!meaning.kind.is_constant(), Refusal::Kind(name)),
        }
    }

    /// The name of a value stands here: of a constant, a global or a local.
    pub fn test_value(&self, name: &'a Name) -> Result<(), Refusal<'a>>
        ensures { found result ≡ fault_at (scope_of self.now) (Value name.now) }
    {
        if self.is_local(name) {
            return Ok(());
        }
        match self.table.find(name) {
            None => Err(Refusal::Missing(name)),
            Some(meaning) => refuse_if(!meaning.kind.has_value(), Refusal::Kind(name)),
        }
    }

    /// The name of a variable stands here: of a global or a local.
    pub fn test_variable(&self, name: &'a Name) -> Result<(), Refusal<'a>>
        ensures { found result ≡ fault_at (scope_of self.now) (Variable name.now) }
    {
        if self.is_local(name) {
            return Ok(());
        }
        match self.table.find(name) {
            None => Err(Refusal::Missing(name)),
            Some(meaning) => refuse_if(!meaning.kind.is_global(), Refusal::Kind(name)),
        }
    }

    /// The name of an array stands here, of words or of bytes.
    pub fn test_array(&self, name: &'a Name, words: bool) -> Result<(), Refusal<'a>>
        ensures { found result ≡ fault_at (scope_of self.now) (Array name.now words) }
    {
        if self.is_local(name) {
            return Err(Refusal::Kind(name));
        }
        match self.table.find(name) {
            None => Err(Refusal::Missing(name)),
            Some(meaning) => refuse_if(!meaning.kind.is_array(words), Refusal::Kind(name)),
        }
    }

    /// The name of a routine that takes so many arguments stands here.
    pub fn test_call(&self, name: &'a Name, count: usize) -> Result<(), Refusal<'a>>
        ensures { found result ≡ fault_at (scope_of self.now) (Call name.now count) }
    {
        if self.is_local(name) {
            return Err(Refusal::Kind(name));
        }
        match self.table.find(name) {
            None => Err(Refusal::Missing(name)),
            Some(meaning) => test_arguments(name, count, meaning.kind),
        }
    }

    /// A `break` or `continue` stands here, which has its loop or hasn't.
    pub fn test_leave(&self, has_loop: bool) -> Result<(), Refusal<'a>>
        ensures { found result ≡ fault_at (scope_of self.now) (Leave has_loop) }
    {
        refuse_if(!has_loop, Refusal::Outside(self.directive))
    }
}
