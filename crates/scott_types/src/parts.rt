//! The parts of a database, in the order of its file. docs/FORMAT.md says what each number means.
use crate::texts::Text;

/// The header's numbers that no length of a list gives.
#[derive(Clone, Copy)]
pub struct Header {
    /// A number that no rule reads.
    pub unused: i32,
    /// The most items that can be carried.
    pub carry: i32,
    /// The room in which a game starts.
    pub start: u8,
    /// How many treasures there are to store.
    pub treasures: i32,
    /// How many bytes of a word count, 1..20.
    pub length: u8,
    /// How long the light lasts, in turns; -1 is for ever.
    pub light: i32,
    /// The room in which treasures are stored.
    pub home: i32,
}

/// An action line, its numbers packed as in the file.
#[derive(Clone, Copy)]
pub struct Action {
    /// `150 * verb + noun`.
    pub vocab: u32,
    /// Five conditions, each `20 * argument + code`.
    pub conds: [u32; 5],
    /// Four opcodes in two pairs, each `150 * first + second`.
    pub pairs: [u32; 2],
}

/// An entry of the vocabulary: a verb and a noun that need have nothing to do with one another.
#[derive(Drop)]
pub struct Word {
    pub verb: Text,
    pub noun: Text,
}

/// A room: its exits north, south, east, west, up and down, and its text.
#[derive(Drop)]
pub struct Room {
    pub exits: [i32; 6],
    pub text: Text,
}

/// An item: its text with the word by which it is taken, and the place where it starts.
#[derive(Drop)]
pub struct Item {
    pub text: Text,
    pub place: u8,
}

/// The last numbers of a file.
#[derive(Clone, Copy)]
pub struct Trailer {
    pub version: i32,
    pub adventure: i32,
    pub third: i32,
}

/// The parts of a database, before they are known to keep its limits.
pub struct Parts {
    pub header: Header,
    pub actions: Vec<Action>,
    pub words: Vec<Word>,
    pub rooms: Vec<Room>,
    pub messages: Vec<Text>,
    pub items: Vec<Item>,
    pub comments: Vec<Text>,
    pub trailer: Trailer,
}

impl Drop for Parts {
    fn drop(self) {
        let Parts {
            header: _,
            actions: _,
            words: _,
            rooms: _,
            messages: _,
            items: _,
            comments: _,
            trailer: _,
        } = self;
    }
}
