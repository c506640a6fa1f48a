//! The lists of a database, each by itself.
ghost use Rattle.std.specs.Prelude.{◌≡◌, ◌≤◌, length};

use crate::databases::Db;
use crate::parts::{Action, Header, Item, Room, Word};
use crate::texts::Text;

impl Db {
    /// The header.
    pub fn header(&self) -> &Header
        ensures { result.now ≡ self.now.header }
    {
        &self.parts().header
    }

    /// The action lines, at most 5,000.
    pub fn actions(&self) -> &[Action]
        ensures value { result.now ≡ self.now.actions }
        ensures few { length result.now ≤ 5000 }
    {
        self.parts().actions.as_slice()
    }

    /// The words, at most 1,000.
    pub fn words(&self) -> &[Word]
        ensures value { result.now ≡ self.now.words }
        ensures few { length result.now ≤ 1000 }
    {
        self.parts().words.as_slice()
    }

    /// The rooms, from 1 to 255.
    pub fn rooms(&self) -> &[Room]
        ensures value { result.now ≡ self.now.rooms }
        ensures some { 1 ≤ length result.now }
        ensures few { length result.now ≤ 255 }
    {
        self.parts().rooms.as_slice()
    }

    /// The messages, at most 1,000.
    pub fn messages(&self) -> &[Text]
        ensures value { result.now ≡ self.now.messages }
        ensures few { length result.now ≤ 1000 }
    {
        self.parts().messages.as_slice()
    }

    /// The items, at most 255.
    pub fn items(&self) -> &[Item]
        ensures value { result.now ≡ self.now.items }
        ensures few { length result.now ≤ 255 }
    {
        self.parts().items.as_slice()
    }
}
