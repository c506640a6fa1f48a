//! How a game is told and how its light ends: the styles of a play.
ghost use Rattle.std.specs.Prelude.{◌≡◌};
ghost use Rattle.scott_types.specs.Style.{plain_style};

/// In what a play differs from the plain one. docs/TURN.md, "Styles", has the rules.
#[derive(Clone, Copy, PartialEq, Eq)]
pub struct Style {
    /// The fixed texts speak of the player as `You` in place of `I`.
    pub you: bool,
    /// Below 25 the turns that the light still lasts are said, each turn.
    pub counted: bool,
    /// The lamp goes out of the game when its light runs out.
    pub vanish: bool,
}

impl Style {
    /// The style of a play that sets none.
    pub fn plain() -> Style
        ensures { result ≡ plain_style }
    {
        Style {
            you: false,
            counted: false,
            vanish: false,
        }
    }
}
