//! How many entries there are that have names.
ghost use Rattle.std.specs.Prelude.{◌≡◌};
ghost use Rattle.scott_types.specs.Database.{database_of};
ghost use Rattle.scott_types.specs.Limits.{KeepsLimits};
ghost use Rattle.adv_decompiler.specs.References.{sizes_of};

use scott_types::Parts;

/// How many rooms, messages and items a database has.
#[derive(Clone, Copy)]
pub struct Sizes {
    pub rooms: u32,
    pub messages: u32,
    pub items: u32,
}

impl Sizes {
    /// The sizes of a database.
    pub fn of(parts: &Parts) -> Sizes
        requires { KeepsLimits (database_of parts.now) }
        ensures { result ≡ sizes_of (database_of parts.now) }
    {
        Sizes {
            rooms: parts.rooms.len() as u32,
            messages: parts.messages.len() as u32,
            items: parts.items.len() as u32,
        }
    }
}
