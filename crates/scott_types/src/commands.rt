//! What a line means.

/// Which words of the vocabulary are searched.
#[derive(Clone, Copy)]
pub enum Column {
    Verbs,
    Nouns,
}

/// Where the first two words of a line stand: each a start and a length, in bytes.
#[derive(Clone, Copy)]
pub struct Words {
    pub first: Option<(u8, u8)>,
    pub second: Option<(u8, u8)>,
}

/// What a line means: nothing, a word that isn't known and where it stands, or the numbers of a
/// verb and perhaps a noun.
#[derive(Clone, Copy, PartialEq, Eq)]
pub enum Heard {
    Blank,
    Unknown(u8, u8),
    Command(u16, Option<u16>),
}
