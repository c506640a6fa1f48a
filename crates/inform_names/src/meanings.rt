//! What a name may mean.
ghost use Rattle.std.specs.Prelude.{◌≡◌};

/// What a directive makes of its name.
#[derive(Clone, Copy, Debug, PartialEq, Eq)]
pub enum Kind {
    /// A constant and its word, or none where the value of the constant has a fault.
    Constant(Option<i32>),
    Global,
    /// An array, of words (`-->`) where the truth value is true, and else of bytes (`->`).
    Array(bool),
    /// A routine with so many locals.
    Routine(usize),
}

/// What a name means: the first directive with it.
#[derive(Clone, Copy)]
pub struct Meaning {
    /// The number of the directive in the program, counted from 0.
    pub at: usize,
    pub kind: Kind,
}

/// What a name stands for as a value.
#[derive(Clone, Copy, Debug, PartialEq, Eq)]
pub enum Value {
    /// The word of a constant.
    Word(i32),
    /// The global that is the directive of this number.
    Global(usize),
}

impl Kind {
    ghost use Rattle.inform_names.specs.Places.{is_constant, is_global, is_array, has_value};

    /// Whether it is that of a constant.
    pub fn is_constant(self) -> bool
        ensures { result ≡ is_constant self }
    {
        match self {
            Kind::Constant(_) => true,
            Kind::Global => false,
            Kind::Array(_) => false,
            Kind::Routine(_) => false,
        }
    }

    /// Whether it is that of a global.
    pub fn is_global(self) -> bool
        ensures { result ≡ is_global self }
    {
        match self {
            Kind::Constant(_) => false,
            Kind::Global => true,
            Kind::Array(_) => false,
            Kind::Routine(_) => false,
        }
    }

    /// Whether it is that of an array, of words or of bytes.
    pub fn is_array(self, words: bool) -> bool
        ensures { result ≡ is_array words self }
    {
        match self {
            Kind::Constant(_) => false,
            Kind::Global => false,
            Kind::Array(other) => { if words { other } else { !other } }
            Kind::Routine(_) => false,
        }
    }

    /// Whether its name alone is a value: that of a constant or a global.
    pub fn has_value(self) -> bool
        ensures { result ≡ has_value self }
    {
        match self {
            Kind::Constant(_) => true,
            Kind::Global => true,
            Kind::Array(_) => false,
            Kind::Routine(_) => false,
        }
    }
}
