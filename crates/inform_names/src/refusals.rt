//! Faults while the program that has them is borrowed.
ghost use Rattle.std.specs.Prelude.{◌≡◌};
ghost use Rattle.inform_names.specs.Faults.{fault_if};
ghost use Rattle.inform_names.specs.Refusals.{refused, found};

use inform_tree::Name;

/// A fault, and the place in the program where its name stands.
#[derive(Clone, Copy)]
pub enum Refusal<'a> {
    Twice(&'a Name),
    Missing(&'a Name),
    Kind(&'a Name),
    TooManyLocals(&'a Name),
    TooManyArguments(&'a Name),
    WideNumber(u32),
    Size(&'a Name),
    Outside(&'a Name),
    TooDeep(&'a Name),
    MainLocals,
    NoMain,
}

/// This refusal, where a test finds something wrong.
pub fn refuse_if<'a>(wrong: bool, refusal: Refusal<'a>) -> Result<(), Refusal<'a>>
    ensures { found result ≡ fault_if wrong (refused refusal.entry) }
{
    if wrong { Err(refusal) } else { Ok(()) }
}
