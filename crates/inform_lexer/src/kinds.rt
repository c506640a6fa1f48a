//! The tokens of a text.

/// What a token is.
#[derive(Clone, Copy, Debug, PartialEq, Eq)]
pub enum Kind {
    /// A name, a word of the grammar or another reserved word.
    Word,
    /// A number in decimal, or after `$` in hexadecimal or after `$$` in binary.
    Number,
    /// A character between apostrophes.
    Character,
    /// A string between quotes.
    Quoted,
    /// A symbol of one, two or three bytes.
    Symbol,
}

/// The most bytes of a text whose places fit into a token. A source has far fewer.
pub const PLACE_LIMIT: usize = 4_294_967_295;

/// A token: what it is, and where it stands. A text has many, so its places are short.
#[derive(Clone, Copy)]
pub struct Token {
    /// What it is.
    pub kind: Kind,
    /// The place of its first byte, counted from the beginning of the text.
    pub start: u32,
    /// The place after its last byte.
    pub end: u32,
}
