//! Why a program isn't accepted.
use inform_tree::Name;

/// The first fault of a program: directive by directive, and in each from left to right.
/// docs/INFORM.md says for each where it stands.
#[derive(Drop)]
pub enum NameFault {
    /// A second directive, or a second local, of this name.
    Twice(Name),
    /// This name isn't defined.
    Missing(Name),
    /// This name is of another kind than its place asks for.
    Kind(Name),
    /// This routine has more than 15 locals.
    TooManyLocals(Name),
    /// A call of this routine has more than 7 arguments, or more than the routine has locals.
    TooManyArguments(Name),
    /// This number has more than 16 bits, where words have 16.
    WideNumber(u32),
    /// The length of this array isn't in 1..32767, or all entries are more than 4,000,000 with it.
    Size(Name),
    /// This routine has a `continue` in no loop, or a `break` whose nearest loop or `switch` is
    /// none or a `switch`.
    Outside(Name),
    /// This routine is deeper than 64.
    TooDeep(Name),
    /// `main` has locals.
    MainLocals,
    /// No routine is named `main`.
    NoMain,
    /// There is no memory for the table of names.
    Memory,
}
