//! The tree of a source. docs/SOURCE.md says what each part means.
use crate::sequences::Seq;
use scott_types::Text;

/// The bytes of a name, a word or a text of a source. They are kept as a text of a database is.
pub type Bytes = Text;

/// What stands at a place, counted in bytes from the beginning of the text.
#[derive(Drop)]
pub struct At<T> {
    pub at: usize,
    pub what: T,
}

/// The entries of a list, each with the place of its first byte.
#[derive(Drop)]
pub struct Entries<T> {
    pub entries: Seq<At<T>>,
    /// The place of the closing brace.
    pub end: usize,
}

/// An entry of a list: its number, or its name.
pub enum Ref {
    Number(i32),
    Name(Bytes),
}

impl Drop for Ref {
    fn drop(self) {
        match self {
            Ref::Number(_) => {}
            Ref::Name(_) => {}
        }
    }
}

/// Where an item is when a game begins.
pub enum Spot {
    Room(Ref),
    Carried,
    Nowhere,
}

impl Drop for Spot {
    fn drop(self) {
        match self {
            Spot::Room(_) => {}
            Spot::Carried => {}
            Spot::Nowhere => {}
        }
    }
}

/// A verb or a noun of a line: its number, or the text that an entry of the vocabulary has.
pub enum Vocab {
    Number(i32),
    Exact(Bytes),
}

impl Drop for Vocab {
    fn drop(self) {
        match self {
            Vocab::Number(_) => {}
            Vocab::Exact(_) => {}
        }
    }
}

/// When a line is tried.
pub enum Head {
    /// For a command with this verb and this noun.
    Line(At<Vocab>, At<Vocab>),
    /// By itself, so many times in a hundred.
    Auto(At<i32>),
    /// After the line before it.
    Also,
}

impl Drop for Head {
    fn drop(self) {
        match self {
            Head::Line(_, _) => {}
            Head::Auto(_) => {}
            Head::Also => {}
        }
    }
}

/// A condition of a line.
#[derive(Drop)]
pub struct Cond {
    /// The condition's number in the database, 0..19.
    pub code: u8,
    pub arg: At<Ref>,
}

/// An opcode of a line.
pub enum Op {
    /// Says a message.
    Say(At<Ref>),
    /// The opcode of a number.
    Number(At<i32>),
    /// The opcode of a name: its number in the database.
    Named(u8),
    /// The same, with its parameters.
    With(u8, Seq<At<Ref>>),
}

impl Drop for Op {
    fn drop(self) {
        match self {
            Op::Say(_) => {}
            Op::Number(_) => {}
            Op::Named(_) => {}
            Op::With(_, _) => {}
        }
    }
}

/// An entry of the vocabulary.
#[derive(Drop)]
pub struct WordPart {
    pub verb: Bytes,
    pub noun: Bytes,
}

/// A room, with its exits north, south, east, west, up and down.
pub struct RoomPart {
    pub name: Option<At<Bytes>>,
    pub text: Bytes,
    pub exits: [At<Ref>; 6],
}

impl Drop for RoomPart {
    fn drop(self) {
        let RoomPart {
            name: _,
            text: _,
            exits: _,
        } = self;
    }
}

/// A message.
#[derive(Drop)]
pub struct MessagePart {
    pub name: Option<At<Bytes>>,
    pub text: Bytes,
}

/// An item, with the place where it is when a game begins.
pub struct ItemPart {
    pub name: Option<At<Bytes>>,
    pub text: Bytes,
    pub place: At<Spot>,
}

impl Drop for ItemPart {
    fn drop(self) {
        let ItemPart {
            name: _,
            text: _,
            place: _,
        } = self;
    }
}

/// A line of actions. A comment that isn't there is empty.
pub struct LinePart {
    pub head: Head,
    pub conds: Seq<At<Cond>>,
    pub ops: Seq<At<Op>>,
    pub comment: Bytes,
}

impl Drop for LinePart {
    fn drop(self) {
        let LinePart {
            head: _,
            conds: _,
            ops: _,
            comment: _,
        } = self;
    }
}

/// A source: the header, the lists and the trailer of a game.
pub struct Source {
    pub unused: At<i32>,
    pub carry: At<i32>,
    pub start: At<Ref>,
    pub treasures: At<i32>,
    pub length: At<i32>,
    pub light: At<i32>,
    pub home: At<Ref>,
    pub words: Entries<WordPart>,
    pub rooms: Entries<RoomPart>,
    pub messages: Entries<MessagePart>,
    pub items: Entries<ItemPart>,
    pub lines: Entries<LinePart>,
    pub trailer: [i32; 3],
}

impl Drop for Source {
    fn drop(self) {
        let Source {
            unused: _,
            carry: _,
            start: _,
            treasures: _,
            length: _,
            light: _,
            home: _,
            words: _,
            rooms: _,
            messages: _,
            items: _,
            lines: _,
            trailer: _,
        } = self;
    }
}
