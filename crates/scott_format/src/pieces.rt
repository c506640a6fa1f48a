//! The entries of the lists, each read by the plan of its type.
ghost use Rattle.std.specs.Prelude.{ℕ, List, ℤ};
ghost use Rattle.scott_format.specs.Pieces.{IsDue, IsSteady};
ghost use Rattle.scott_format.specs.Plan.{Plan};
ghost use Rattle.scott_format.specs.Sections.{action, word, room, string, item};
ghost use Rattle.scott_format.specs.Reading.{Follows};

use crate::faults::FormatFault;
use crate::numbers::{action_number, number, string};
use crate::stops::Due;
use adv_text::Scan;
use scott_types::{Action, Item, Room, Text, Word};
use std::alloc::Global;

/// What a list of the text is made of.
pub trait Piece: Drop {
    // The plan of the entry with this number.
    ghost plan: { ℕ → Plan Self };

    /// Reads the entry with this number.
    fn read(alloc: Global, scan: &mut Scan, k: u16) -> Result<Self, FormatFault>
        ensures { Follows (plan k) scan.old result scan.new };

    /// What an entry begins with.
    fn first() -> Due
        ensures { (k : ℕ) → IsDue result (plan k) };

    // All that an entry consists of must be there.
    ghost steady: { (k : ℕ) → IsSteady (plan k) };
}

impl Piece for Action {
    ghost use Rattle.scott_format.specs.Steady.{action_steady};

    ghost plan = { action };

    #[tactic(auto, unfolding(crate::specs::Sections::action))]
    fn read(_alloc: Global, scan: &mut Scan, k: u16) -> Result<Action, FormatFault> {
        let vocab = action_number(scan, k)?;
        let a = action_number(scan, k)?;
        let b = action_number(scan, k)?;
        let c = action_number(scan, k)?;
        let d = action_number(scan, k)?;
        let e = action_number(scan, k)?;
        let first = action_number(scan, k)?;
        let second = action_number(scan, k)?;
        Ok(Action {
            vocab,
            conds: [a, b, c, d, e],
            pairs: [first, second],
        })
    }

    fn first() -> Due {
        Due::Number
    }

    ghost steady = { action_steady };
}

impl Piece for Word {
    ghost use Rattle.scott_format.specs.Steady.{word_steady};

    ghost plan = { λ _. word };

    #[tactic(auto, unfolding(crate::specs::Sections::word))]
    fn read(alloc: Global, scan: &mut Scan, _k: u16) -> Result<Word, FormatFault> {
        let verb = string(alloc, scan)?;
        let noun = string(alloc, scan)?;
        Ok(Word { verb, noun })
    }

    fn first() -> Due {
        Due::Text
    }

    ghost steady = { word_steady };
}

impl Piece for Room {
    ghost use Rattle.scott_format.specs.Steady.{room_steady};

    ghost plan = { λ _. room };

    #[tactic(auto, unfolding(crate::specs::Sections::room))]
    fn read(alloc: Global, scan: &mut Scan, _k: u16) -> Result<Room, FormatFault> {
        let north = number(scan)?;
        let south = number(scan)?;
        let east = number(scan)?;
        let west = number(scan)?;
        let up = number(scan)?;
        let down = number(scan)?;
        let text = string(alloc, scan)?;
        Ok(Room {
            exits: [north, south, east, west, up, down],
            text,
        })
    }

    fn first() -> Due {
        Due::Number
    }

    ghost steady = { room_steady };
}

impl Piece for Text {
    ghost use Rattle.scott_format.specs.Steady.{string_steady};

    ghost plan = { λ _. string };

    fn read(alloc: Global, scan: &mut Scan, _k: u16) -> Result<Text, FormatFault> {
        string(alloc, scan)
    }

    fn first() -> Due {
        Due::Text
    }

    ghost steady = { string_steady };
}

impl Piece for Item {
    ghost use Rattle.scott_format.specs.Steady.{item_steady};

    ghost plan = { λ _. item };

    #[tactic(auto, unfolding(crate::specs::Sections::item))]
    fn read(alloc: Global, scan: &mut Scan, _k: u16) -> Result<Item, FormatFault> {
        let text = string(alloc, scan)?;
        let place = number(scan)?;
        Ok(Item {
            text,
            place: place.rem_euclid(256) as u8,
        })
    }

    fn first() -> Due {
        Due::Text
    }

    ghost steady = { item_steady };
}
