//! The choices of `switch`.
ghost use Rattle.std.specs.Prelude.{◌≡◌, ◌≤◌, max};
ghost use Rattle.inform_tree.specs.Depths.{cases_depth, default_depth};
ghost use Rattle.inform_tree.specs.Statements.{cases_of};
ghost use Rattle.inform_meaning.specs.Words.{is_between};
ghost use Rattle.inform_meaning.specs.Meaning.{Calls};
ghost use Rattle.inform_meaning.specs.Statements.{constant_value, fits_choice, fits_any, exec_cases, exec_default};
ghost use Rattle.inform_worlds.specs.Worlds.{program_of};
ghost use Rattle.inform_frames.specs.Frames.{default_of};

use crate::words::number;
use inform_names::{Kind, Names};
use inform_tree::{Case, Const, Name, Stmt};

// From the first to the last.
fn is_between(first: i32, last: i32, x: i32) -> bool
    ensures { result ≡ is_between first last x }
{
    first <= x && x <= last
}

// The word of the constant of this name, and 0 where there is none.
fn constant_named(names: &Names, name: &Name) -> i32
    ensures { result ≡ constant_value (program_of names.now.accepted.now) (Const.Name name.now) }
{
    match names.find(name.bytes()) {
        None => 0,
        Some(meaning) => match meaning.kind {
            Kind::Constant(Some(word)) => word,
            Kind::Constant(None) => 0,
            Kind::Global => 0,
            Kind::Array(_) => 0,
            Kind::Routine(_) => 0,
        },
    }
}

// The word of a constant.
fn constant_value(names: &Names, x: &Const) -> i32
    ensures { result ≡ constant_value (program_of names.now.accepted.now) x.now }
{
    match x {
        Const::Number(n) => number(names, *n),
        Const::Char(byte) => i32::from(*byte),
        Const::Name(name) => constant_named(names, name),
        Const::Minus(_) => names.word(x),
    }
}

// Whether a value is that of a choice, or in its range.
fn fits_choice(names: &Names, a: i32, choice: &(Const, Option<Const>)) -> bool
    ensures { result ≡ fits_choice (program_of names.now.accepted.now) a choice.now }
{
    let first = constant_value(names, &choice.0);
    match &choice.1 {
        None => is_between(first, first, a),
        Some(last) => is_between(first, constant_value(names, last), a),
    }
}

// Whether a value fits one of the choices.
fn fits_any(names: &Names, a: i32, choices: &Vec<(Const, Option<Const>)>) -> bool
    ensures { result ≡ fits_any (program_of names.now.accepted.now) a choices.now.items }
{
    for choice in choices {
        if fits_choice(names, a, choice) {
            return true;
        }
    }
    false
}

/// The block of the first case that fits a value, or of what is done where none does.
pub fn picked<'a>(
    names: &Names<'a>,
    a: i32,
    cases: &'a Vec<Case>,
    rest: Option<&'a Vec<Stmt>>,
) -> Option<&'a Vec<Stmt>>
    ensures means { (call : Calls) → exec_cases (program_of names.now.accepted.now) call a
        (cases_of cases.now.items) (exec_default (program_of names.now.accepted.now) call
        (default_of rest.entry)) ≡ exec_default (program_of names.now.accepted.now) call
        (default_of result) }
    ensures deep { default_depth (default_of result) ≤ max (cases_depth (cases_of cases.now.items))
        (default_depth (default_of rest.entry)) }
{
    for case in cases {
        if fits_any(names, a, &case.choices) {
            return Some(&case.body);
        }
    }
    rest
}
