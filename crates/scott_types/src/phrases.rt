//! The fixed texts of the machine, each under a name.
ghost use Rattle.std.specs.Prelude.{◌≡◌};
ghost use Rattle.scott_types.specs.Phrase.{text_of, second_person, text_in};

use crate::styles::Style;

/// A fixed text that the machine says, or a part of one.
///
/// docs/TURN.md says when each is said.
#[derive(Clone, Copy)]
pub enum Phrase {
    TooDark,
    InA,
    ObviousExits,
    North,
    South,
    East,
    West,
    Up,
    Down,
    NoExits,
    BetweenExits,
    ListEnd,
    AlsoSee,
    BetweenItems,
    CarryingList,
    NothingCarried,
    Stored,
    Rating,
    WellDone,
    GameOver,
    LightOut,
    LightDim,
    LightLasts,
    LightTurns,
    TooMuch,
    Dead,
    NoSaving,
    Newline,
    Prompt,
    UnknownOpening,
    UnknownBack,
    NeedDirection,
    DarkMove,
    Moved,
    BrokenNeck,
    NoExitThere,
    NotYet,
    NotUnderstood,
    DarkGet,
    ItemDone,
    NothingTaken,
    NothingDropped,
    WhatItem,
    Done,
    BeyondPower,
}

impl Phrase {
    /// The bytes of the text, in the plain style.
    #[tactic(auto, unfolding(crate::specs::Phrase::text_of))]
    pub fn text(self) -> &'static [u8]
        ensures { result.now ≡ text_of self }
    {
        match self {
            Phrase::TooDark => b"I can't see. It is too dark!\n",
            Phrase::InA => b"I'm in a ",
            Phrase::ObviousExits => b"\nObvious exits: ",
            Phrase::North => b"North",
            Phrase::South => b"South",
            Phrase::East => b"East",
            Phrase::West => b"West",
            Phrase::Up => b"Up",
            Phrase::Down => b"Down",
            Phrase::NoExits => b"none",
            Phrase::BetweenExits => b", ",
            Phrase::ListEnd => b".\n",
            Phrase::AlsoSee => b"\nI can also see: ",
            Phrase::BetweenItems => b" - ",
            Phrase::CarryingList => b"I'm carrying:\n",
            Phrase::NothingCarried => b"Nothing",
            Phrase::Stored => b"I've stored ",
            Phrase::Rating => b" treasures.  On a scale of 0 to 100, that rates ",
            Phrase::WellDone => b"Well done.\n",
            Phrase::GameOver => b"The game is now over.\n",
            Phrase::LightOut => b"Your light has run out. ",
            Phrase::LightDim => b"Your light is growing dim. ",
            Phrase::LightLasts => b"Your light runs out in ",
            Phrase::LightTurns => b" turns. ",
            Phrase::TooMuch => b"I've too much to carry! ",
            Phrase::Dead => b"I am dead.\n",
            Phrase::NoSaving => b"[Saving is left out.]\n",
            Phrase::Newline => b"\n",
            Phrase::Prompt => b"\nTell me what to do ? ",
            Phrase::UnknownOpening => b"\"",
            Phrase::UnknownBack => b"\" is a word I don't know. ",
            Phrase::NeedDirection => b"Give me a direction too. ",
            Phrase::DarkMove => b"Dangerous to move in the dark! ",
            Phrase::Moved => b"O.K.\n",
            Phrase::BrokenNeck => b"I fell down and broke my neck. ",
            Phrase::NoExitThere => b"I can't go in that direction. ",
            Phrase::NotYet => b"I can't do that yet. ",
            Phrase::NotUnderstood => b"I don't understand your command. ",
            Phrase::DarkGet => b"It is dark.\n",
            Phrase::ItemDone => b": O.K.\n",
            Phrase::NothingTaken => b"Nothing taken. ",
            Phrase::NothingDropped => b"Nothing dropped. ",
            Phrase::WhatItem => b"What ? ",
            Phrase::Done => b"O.K. ",
            Phrase::BeyondPower => b"It's beyond my power to do that. ",
        }
    }
    // The bytes of the text in the second person.
    #[tactic(auto, unfolding(crate::specs::Phrase::second_person))]
    fn second_person(self) -> &'static [u8]
        ensures { result.now ≡ second_person self }
    {
        match self {
            Phrase::TooDark => b"You can't see. It is too dark!\n",
            Phrase::InA => b"You are in a ",
            Phrase::AlsoSee => b"\nYou can also see: ",
            Phrase::CarryingList => b"You are carrying:\n",
            Phrase::Stored => b"You have stored ",
            Phrase::TooMuch => b"You have too much to carry! ",
            Phrase::Dead => b"You are dead.\n",
            Phrase::BrokenNeck => b"You fell down and broke your neck. ",
            Phrase::NoExitThere => b"You can't go in that direction. ",
            Phrase::BeyondPower => b"It's beyond your power to do that. ",
            Phrase::NotYet => b"You can't do that yet. ",
            _ => self.text(),
        }
    }

    /// The bytes of the text in a style.
    pub fn text_in(self, style: Style) -> &'static [u8]
        ensures { result.now ≡ text_in style self }
    {
        if style.you {
            self.second_person()
        } else {
            self.text()
        }
    }
}
