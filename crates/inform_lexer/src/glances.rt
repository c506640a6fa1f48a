//! What is seen of a token at a glance.
use inform_lexemes::{Keyword, Symbol};

/// What is seen of a token without memory: all but the bytes of a name and of a string.
#[derive(Clone, Copy, Debug, PartialEq, Eq)]
pub enum Glance {
    /// A word of the grammar.
    Word(Keyword),
    /// Any other reserved word: it begins nothing.
    Reserved,
    /// A name, whose bytes `name` gives.
    Name,
    /// A number.
    Number(u32),
    /// A character.
    Character(u8),
    /// A string, whose bytes `text` gives.
    Quoted,
    /// A symbol.
    Symbol(Symbol),
}
