//! Where items are, and whether it is dark.
ghost use Rattle.std.specs.Prelude.{◌≡◌, ◌≢◌, ◌<◌, ◌≤◌, IsTrue, length};
ghost use Rattle.scott_types.specs.State.{has_item, place_of, is_here, is_carried, is_near, is_dark, carried_count, flag_of};

use crate::states::State;

/// The place of what is carried.
pub const CARRIED: u8 = 255;

/// The item that gives light.
pub const LAMP: u32 = 9;

/// The flag of darkness.
pub const DARK_FLAG: u32 = 15;

/// The flag that says that the light is out.
pub const OUT_FLAG: u32 = 16;

impl State {
    /// Whether the item is there at all.
    pub fn has_item(&self, item: u32) -> bool
        ensures { result ≡ has_item self.now item }
    {
        (item as usize) < self.places.len()
    }

    /// Where an item is: 0 for one that isn't there.
    pub fn place(&self, item: u32) -> u8
        ensures value { result ≡ place_of self.now item }
        ensures there { result ≢ 0 → IsTrue (has_item self.now item) }
    {
        let places = self.places.as_slice();
        if (item as usize) < places.len() {
            places[item as usize]
        } else {
            0
        }
    }

    /// Whether an item is in the room.
    pub fn is_here(&self, item: u32) -> bool
        ensures { result ≡ is_here self.now item }
    {
        self.place(item) == self.room
    }

    /// Whether an item is carried.
    pub fn is_carried(&self, item: u32) -> bool
        ensures { result ≡ is_carried self.now item }
    {
        self.place(item) == CARRIED
    }

    /// Whether an item is carried or in the room.
    pub fn is_near(&self, item: u32) -> bool
        ensures { result ≡ is_near self.now item }
    {
        self.is_carried(item) || self.is_here(item)
    }

    /// How many items are carried.
    pub fn carried_count(&self) -> usize
        ensures count { result ≡ carried_count self.now }
        ensures few { result ≤ 255 }
    {
        self.places
            .as_slice()
            .iter()
            .filter(|place| **place == CARRIED)
            .count()
    }

    /// Whether a flag is set: one above 31 is clear.
    pub fn flag(&self, flag: u32) -> bool
        ensures { result ≡ flag_of self.now flag }
    {
        flag < 32 && self.flags[flag as usize]
    }

    /// Whether it is dark: the flag of darkness is set, and the lamp isn't near.
    pub fn is_dark(&self) -> bool
        ensures { result ≡ is_dark self.now }
    {
        self.flag(DARK_FLAG) && !self.is_near(LAMP)
    }
}
