//! The table of the names of a program.
ghost use Rattle.std.specs.Prelude.{◌≡◌, ℕ, List, OnOk, IfOk, Some, None, if◌then◌else◌};
ghost use Rattle.std.specs.Option.{option_or};
ghost use Rattle.std.specs.Str.{bytes_eq};
ghost use Rattle.inform_tree.specs.Programs.{directive_of, program_of};
ghost use Rattle.inform_names.specs.Meanings.{word_of_meaning, name_of, with_directive, meanings, array_length};

use crate::meanings::{Kind, Meaning};
use crate::words::{minus_word, word};
use adv_io::Memory;
use indexmap::IndexMap;
use inform_tree::{Const, Directive, Name, Program, Width};
use std::alloc::Global;
use std::marker::Model;

/// What each name means.
///
/// A clause sees the list of the names with their meanings.
pub struct Table<'a> {
    meanings: IndexMap<&'a [u8], Meaning>,
}

impl Drop for Table<'_> {
    fn drop(self) {
        let Table { meanings: _ } = self;
    }
}

impl<'a> Model for Table<'a> {
    ghost use Rattle.std.specs.Prelude.{List, ℕ, map};
    ghost use Rattle.inform_names.specs.declared.meanings.Meaning.{Meaning};

    ghost Value = { List (List ℕ × Meaning) };

    ghost view = { λ t. map (λ e. (e.0.now, e.1)) t.meanings.entries };
}

/// The name of a directive.
pub fn name_of(directive: &Directive) -> &Name
    ensures { result.now ≡ name_of (directive_of directive.now) }
{
    match directive {
        Directive::Constant(name, _) => name,
        Directive::Global(name, _) => name,
        Directive::Array(name, _, _) => name,
        Directive::Routine(routine) => &routine.name,
    }
}

/// The word of a constant that means this.
pub fn word_of(meaning: Option<Meaning>) -> Option<i32>
    ensures { result ≡ word_of_meaning meaning }
{
    match meaning {
        Some(
            Meaning {
                at: _,
                kind: Kind::Constant(value),
            },
        ) => value,
        _ => None,
    }
}

impl<'a> Table<'a> {
    ghost use Rattle.std.specs.Prelude.{◌≡◌};
    ghost use Rattle.inform_names.specs.Tables.{found_in};
    ghost use Rattle.inform_names.specs.Meanings.{constant_word, kind_of};

    /// What a name means, if anything.
    pub fn find(&self, name: &Name) -> Option<Meaning>
        ensures { result ≡ found_in self.now name.now }
    {
        self.find_bytes(name.bytes())
    }

    /// What the name with these bytes means, if anything.
    pub fn find_bytes(&self, name: &[u8]) -> Option<Meaning>
        ensures { result ≡ found_in self.now name.now }
    {
        self.meanings.get(name).copied()
    }

    /// The word that a constant stands for, if any.
    pub fn constant_word(&self, width: Width, constant: &Const) -> Option<i32>
        ensures { result ≡ constant_word width (found_in self.now) constant.now }
    {
        match constant {
            Const::Number(number) => Some(word(width, *number)),
            Const::Char(byte) => Some(i32::from(*byte)),
            Const::Name(name) => word_of(self.find(name)),
            Const::Minus(number) => Some(minus_word(width, *number)),
        }
    }

    /// How many entries an array has, if that is known.
    pub fn array_length(&self, width: Width, entries: &Vec<Const>) -> Option<i64>
        ensures { result ≡ array_length width (found_in self.now) entries.now.items }
    {
        match entries.as_slice() {
            [only] => match self.constant_word(width, only) {
                Some(length) => Some(i64::from(length)),
                None => None,
            },
            _ => Some(entries.len() as i64),
        }
    }

    // What a directive makes of its name.
    fn kind_of(&self, width: Width, directive: &Directive) -> Kind
        ensures { result ≡ kind_of width (found_in self.now) (directive_of directive.now) }
    {
        match directive {
            Directive::Constant(_, value) => Kind::Constant(self.constant_word(width, value)),
            Directive::Global(_, _) => Kind::Global,
            Directive::Array(_, words, _) => Kind::Array(*words),
            Directive::Routine(routine) => Kind::Routine(routine.locals.len()),
        }
    }

    // Adds a name, unless it has a meaning.
    fn add(&mut self, name: &'a Name, meaning: Meaning) -> Result<(), Memory>
        ensures { OnOk result ((other : List ℕ)
            → found_in self.new other ≡ option_or (found_in self.old other)
            (if bytes_eq other name.now then Some meaning else None)) }
    {
        match self.find(name) {
            Some(_) => Ok(()),
            None => {
                self.meanings.insert(name.bytes(), meaning)?;
                Ok(())
            }
        }
    }

    // Adds the name of directive number `at`.
    fn add_directive(
        &mut self,
        width: Width,
        at: usize,
        directive: &'a Directive,
    ) -> Result<(), Memory>
        ensures { OnOk result (found_in self.new
            ≡ with_directive width (found_in self.old) at (directive_of directive.now)) }
    {
        let kind = self.kind_of(width, directive);
        self.add(name_of(directive), Meaning { at, kind })
    }

    /// The table of the names of a program.
    pub fn of(alloc: Global, width: Width, program: &'a Program) -> Result<Table<'a>, Memory>
        ensures { IfOk result (λ table. found_in table ≡ meanings width (program_of program.now)) }
    {
        let mut table = Table {
            meanings: IndexMap::with_capacity(alloc, program.directives.len())?,
        };
        for (at, directive) in program.directives.iter().enumerate() {
            table.add_directive(width, at, directive)?;
        }
        Ok(table)
    }
}
