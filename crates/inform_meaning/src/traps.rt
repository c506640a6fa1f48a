//! What ends a run that does what it can't do.
ghost use Rattle.std.specs.Prelude.{◌≡◌};

/// What a run was about to do.
#[derive(Clone, Copy, Debug, PartialEq, Eq)]
pub enum Trap {
    /// A division, or the remainder of one, by 0.
    Division,
    /// A read or a write of an entry that the array doesn't have.
    Index,
    /// `random` of a number below 1.
    Random,
    /// A call inside 200 others.
    Depth,
    /// A line into a buffer without room for as many bytes as its first entry says.
    Line,
}

impl Trap {
    ghost use Rattle.inform_meaning.specs.TrapTexts.{trap_word};

    /// The word that is said of it.
    #[tactic(auto, unfolding(crate::specs::TrapTexts::trap_word))]
    pub fn word<'a>(self) -> &'a [u8]
        ensures { result.now ≡ trap_word self }
    {
        match self {
            Trap::Division => b"division",
            Trap::Index => b"index",
            Trap::Random => b"random",
            Trap::Depth => b"depth",
            Trap::Line => b"line",
        }
    }
}
