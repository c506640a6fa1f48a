//! The names of an accepted program. A look-up doesn't fail where the place that asks is fine.
ghost use Rattle.std.specs.Prelude.{◌≡◌, ◌≤◌, ◌<◌, ℕ, List, [], pos, length, slice_get, Some, None, IfOk, IfSome, IfNone, IsSome};
ghost use Rattle.inform_tree.specs.Statements.{statements_of};
ghost use Rattle.inform_tree.specs.Programs.{directive_of, routine_of};
ghost use Rattle.inform_tree.specs.Programs as d;
ghost use Rattle.inform_names.specs.declared.meanings.Kind.TheVariants as k;
ghost use Rattle.inform_names.specs.declared.limits.TheConstants.{LENGTH_LIMIT};
ghost use Rattle.inform_names.specs.Meanings.{word_of_meaning, constant_word, array_length};
ghost use Rattle.inform_names.specs.Demands.{statements_demands, no_loop};
ghost use Rattle.inform_names.specs.Places.{is_constant, is_global, is_array, has_value, kind_fault, call_fault, IsFine};
ghost use Rattle.inform_names.specs.Acceptance.{routine_scope, main};
ghost use Rattle.inform_names.specs.Laws.{IsMeaningOf};
ghost use Rattle.inform_names.specs.Lookups.{IsGlobalAt, IsLength, IsValueOf};
ghost use Rattle.inform_names.specs.Tables.{found_in};
ghost use Rattle.inform_names.specs.Views.{directives_of, names_of};

use crate::accepted::Accepted;
use crate::meanings::{Kind, Meaning, Value};
use crate::tables::{Table, word_of};
use adv_io::Memory;
use inform_tree::{Const, Directive, Name, Routine};
use std::alloc::Global;

/// An array that a name means.
#[derive(Clone, Copy)]
pub struct Entries<'a> {
    /// The number of its directive.
    pub at: usize,
    /// Its entries, or its length alone.
    pub entries: &'a Vec<Const>,
    /// How many entries it has.
    pub length: u32,
}

/// The names of an accepted program.
#[derive(Drop)]
pub struct Names<'a> {
    accepted: &'a Accepted,
    table: Table<'a>,
    pub ghost right: { (name : List ℕ) → found_in table name ≡ names_of accepted.now name },
}

impl<'a> Names<'a> {
    /// The names of this program.
    pub fn of(alloc: Global, accepted: &'a Accepted) -> Result<Names<'a>, Memory>
        ensures { IfOk result (λ names. names.accepted.now ≡ accepted.now) }
    {
        let table = Table::of(alloc, accepted.width(), accepted.program())?;
        Ok(Names { accepted, table })
    }

    /// The program.
    pub fn accepted(&self) -> &'a Accepted
        ensures { result.now ≡ self.now.accepted.now }
    {
        self.accepted
    }

    /// What the name with these bytes means, if anything.
    pub fn find(&self, name: &[u8]) -> Option<Meaning>
        ensures { result ≡ names_of self.now.accepted.now name.now }
    {
        self.table.find_bytes(name)
    }

    /// The directive of this number.
    pub fn directive(&self, number: usize) -> &'a Directive
        requires { number < length (directives_of self.now.accepted.now) }
        ensures { slice_get (directives_of self.now.accepted.now) number
            ≡ Some (directive_of result.now) }
    {
        &self.accepted.program().directives[number]
    }

    // What a name means, and its directive.
    fn entry(&self, name: &[u8]) -> Option<(Meaning, &'a Directive)>
        ensures none { IfNone result (names_of self.now.accepted.now name.now ≡ None) }
        ensures meaning { IfSome result (λ e. names_of self.now.accepted.now name.now ≡ Some e.0) }
        ensures directive { IfSome result (λ e. IsMeaningOf self.now.accepted.now.width
            (directives_of self.now.accepted.now) name.now e.0 (directive_of e.1.now)) }
    {
        match self.table.find_bytes(name) {
            None => None,
            Some(meaning) => {
                let directive = &self.accepted.program().directives[meaning.at];
                Some((meaning, directive))
            }
        }
    }

    /// The routine that a call with so many arguments means, and the number of its directive.
    pub fn routine(&self, name: &Name, count: usize) -> (usize, &'a Routine)
        requires { call_fault name.now count (names_of self.now.accepted.now name.now) ≡ None }
        ensures meaning { names_of self.now.accepted.now name.now ≡ Some (record {
          at = result.0;
          kind = k.Routine (length result.1.now.locals.items);
        }) }
        ensures directive { slice_get (directives_of self.now.accepted.now) result.0
            ≡ Some (d.Routine (routine_of result.1.now)) }
        ensures name { result.1.now.name ≡ name.now }
        ensures arguments { count ≤ length result.1.now.locals.items }
        ensures fine { IsFine (routine_scope self.now.accepted.now.width
            (names_of self.now.accepted.now) (routine_of result.1.now))
            (statements_demands no_loop (statements_of result.1.now.body.items)) }
    {
        match self.entry(name.bytes()) {
            None => unreachable!(),
            Some((meaning, directive)) => match directive {
                Directive::Routine(routine) => (meaning.at, routine),
                Directive::Constant(_, _) => unreachable!(),
                Directive::Global(_, _) => unreachable!(),
                Directive::Array(_, _, _) => unreachable!(),
            },
        }
    }

    /// The array that this name means, of words or of bytes.
    pub fn array(&self, name: &Name, words: bool) -> Entries<'a>
        requires { kind_fault (is_array words) name.now (names_of self.now.accepted.now name.now)
            ≡ None }
        ensures meaning { names_of self.now.accepted.now name.now ≡ Some (record {
          at = result.at;
          kind = k.Array words;
        }) }
        ensures directive { slice_get (directives_of self.now.accepted.now) result.at
            ≡ Some (d.Array name.now words result.entries.now.items) }
        ensures length { array_length self.now.accepted.now.width (names_of self.now.accepted.now)
            result.entries.now.items ≡ Some (pos result.length) }
        ensures some { 1 ≤ result.length }
        ensures few { result.length ≤ LENGTH_LIMIT }
    {
        match self.entry(name.bytes()) {
            None => unreachable!(),
            Some((meaning, directive)) => match directive {
                Directive::Array(_, _, entries) => Entries {
                    at: meaning.at,
                    entries,
                    length: self.length(entries),
                },
                Directive::Constant(_, _) => unreachable!(),
                Directive::Global(_, _) => unreachable!(),
                Directive::Routine(_) => unreachable!(),
            },
        }
    }

    // How many entries an array has.
    fn length(&self, entries: &Vec<Const>) -> u32
        requires { IsLength (array_length self.now.accepted.now.width
            (names_of self.now.accepted.now) entries.now.items) }
        ensures length { array_length self.now.accepted.now.width
            (names_of self.now.accepted.now) entries.now.items ≡ Some (pos result) }
        ensures some { 1 ≤ result }
        ensures few { result ≤ LENGTH_LIMIT }
    {
        match self.table.array_length(self.accepted.width(), entries) {
            Some(length) => length as u32,
            None => unreachable!(),
        }
    }

    /// The number of the directive of the global that this name means.
    pub fn global(&self, name: &Name) -> usize
        requires { kind_fault is_global name.now (names_of self.now.accepted.now name.now) ≡ None }
        ensures meaning { names_of self.now.accepted.now name.now ≡ Some (record {
          at = result;
          kind = k.Global;
        }) }
        ensures directive { IsGlobalAt (directives_of self.now.accepted.now) result name.now }
    {
        match self.entry(name.bytes()) {
            None => unreachable!(),
            Some((meaning, directive)) => match directive {
                Directive::Global(_, _) => meaning.at,
                Directive::Constant(_, _) => unreachable!(),
                Directive::Array(_, _, _) => unreachable!(),
                Directive::Routine(_) => unreachable!(),
            },
        }
    }

    /// The word of the constant that this name means.
    pub fn constant(&self, name: &Name) -> i32
        requires { kind_fault is_constant name.now (names_of self.now.accepted.now name.now)
            ≡ None }
        ensures { word_of_meaning (names_of self.now.accepted.now name.now) ≡ Some result }
    {
        match word_of(self.table.find(name)) {
            Some(word) => word,
            None => unreachable!(),
        }
    }

    /// What this name stands for as a value: the word of a constant, or a global.
    pub fn value(&self, name: &Name) -> Value
        requires { kind_fault has_value name.now (names_of self.now.accepted.now name.now) ≡ None }
        ensures { IsValueOf (names_of self.now.accepted.now name.now) result }
    {
        match self.table.find(name) {
            None => unreachable!(),
            Some(meaning) => match meaning.kind {
                Kind::Constant(_) => Value::Word(self.constant(name)),
                Kind::Global => Value::Global(meaning.at),
                Kind::Array(_) => unreachable!(),
                Kind::Routine(_) => unreachable!(),
            },
        }
    }

    /// The word of a constant that has one, as each that stands in the program at its place has.
    pub fn word(&self, constant: &Const) -> i32
        requires { IsSome (constant_word self.now.accepted.now.width
            (names_of self.now.accepted.now) constant.now) }
        ensures { constant_word self.now.accepted.now.width (names_of self.now.accepted.now)
            constant.now ≡ Some result }
    {
        match self.table.constant_word(self.accepted.width(), constant) {
            Some(word) => word,
            None => unreachable!(),
        }
    }

    /// The word that a constant stands for, if any.
    pub fn word_if_any(&self, constant: &Const) -> Option<i32>
        ensures { result ≡ constant_word self.now.accepted.now.width
            (names_of self.now.accepted.now) constant.now }
    {
        self.table.constant_word(self.accepted.width(), constant)
    }

    /// The routine `main`, and the number of its directive.
    pub fn main(&self) -> (usize, &'a Routine)
        ensures meaning { names_of self.now.accepted.now main ≡ Some (record {
          at = result.0;
          kind = k.Routine 0;
        }) }
        ensures directive { slice_get (directives_of self.now.accepted.now) result.0
            ≡ Some (d.Routine (routine_of result.1.now)) }
        ensures name { result.1.now.name ≡ main }
        ensures locals { result.1.now.locals.items ≡ [] }
        ensures fine { IsFine (routine_scope self.now.accepted.now.width
            (names_of self.now.accepted.now) (routine_of result.1.now))
            (statements_demands no_loop (statements_of result.1.now.body.items)) }
    {
        match self.entry(b"main") {
            None => unreachable!(),
            Some((meaning, directive)) => match directive {
                Directive::Routine(routine) => (meaning.at, routine),
                Directive::Constant(_, _) => unreachable!(),
                Directive::Global(_, _) => unreachable!(),
                Directive::Array(_, _, _) => unreachable!(),
            },
        }
    }
}
