//! A sequence of parts of a source.
ghost use Rattle.std.specs.Prelude.{◌≡◌};

use std::marker::Model;

/// A sequence of parts of one kind.
///
/// A clause sees the list of its members.
#[derive(Drop)]
pub struct Seq<T> {
    kept: Vec<T>,
}

impl<T> Model for Seq<T> {
    ghost use Rattle.std.specs.Prelude.{List};

    ghost Value = { List T };

    ghost view = { λ s. s.kept.items };
}

impl<T> Seq<T> {
    /// The sequence of these members.
    pub fn of(members: Vec<T>) -> Seq<T>
        ensures { result ≡ members.items }
    {
        Seq { kept: members }
    }

    /// The members themselves.
    pub fn as_slice(&self) -> &[T]
        ensures { result.now ≡ self.now }
    {
        self.kept.as_slice()
    }
}
