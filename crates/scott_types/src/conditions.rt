//! The conditions of an action line.
ghost use Rattle.std.specs.Prelude.{◌≡◌, ◌<◌};
ghost use Rattle.scott_types.specs.Condition.{condition_of, code_of, names_of};

use crate::parameters::Parameter;

/// What a condition tests. Each takes one argument; docs/TURN.md says when each holds.
#[derive(Clone, Copy)]
pub enum Condition {
    /// Always: the argument is a parameter of the opcodes.
    Parameter,
    Carried,
    Here,
    Near,
    At,
    NotHere,
    NotCarried,
    NotAt,
    FlagSet,
    FlagClear,
    SomeCarried,
    NoneCarried,
    NotNear,
    InGame,
    OutOfGame,
    CounterAtMost,
    CounterOver,
    AtStart,
    NotAtStart,
    CounterIs,
}

// The conditions by their codes in the file.
static CONDITIONS: [Condition; 20] = [
    Condition::Parameter,
    Condition::Carried,
    Condition::Here,
    Condition::Near,
    Condition::At,
    Condition::NotHere,
    Condition::NotCarried,
    Condition::NotAt,
    Condition::FlagSet,
    Condition::FlagClear,
    Condition::SomeCarried,
    Condition::NoneCarried,
    Condition::NotNear,
    Condition::InGame,
    Condition::OutOfGame,
    Condition::CounterAtMost,
    Condition::CounterOver,
    Condition::AtStart,
    Condition::NotAtStart,
    Condition::CounterIs,
];

impl Condition {
    /// The condition of a code, 0..19.
    pub fn of(code: u8) -> Condition
        requires { code < 20 }
        ensures { result ≡ condition_of code }
    {
        CONDITIONS[code as usize]
    }

    /// The condition's code in the file.
    pub fn code(self) -> u8
        ensures { result ≡ code_of self }
    {
        self as u8
    }

    /// What the condition's argument names: a mere number where it names nothing.
    pub fn names(self) -> Parameter
        ensures { result ≡ names_of self }
    {
        match self {
            Condition::Carried
            | Condition::Here
            | Condition::Near
            | Condition::NotHere
            | Condition::NotCarried
            | Condition::NotNear
            | Condition::InGame
            | Condition::OutOfGame
            | Condition::AtStart
            | Condition::NotAtStart => Parameter::Item,
            Condition::At | Condition::NotAt => Parameter::Room,
            Condition::FlagSet | Condition::FlagClear => Parameter::Flag,
            Condition::Parameter
            | Condition::SomeCarried
            | Condition::NoneCarried
            | Condition::CounterAtMost
            | Condition::CounterOver
            | Condition::CounterIs => Parameter::Number,
        }
    }
}
