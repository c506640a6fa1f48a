//! Why tokens are no program.
use thiserror::Error;

/// The first fault of a list of tokens. Its place is that of the token's first byte, counted from
/// the beginning of the text, or the length of the text where it ends too early. docs/INFORM.md has
/// the rules ("What the parser refuses").
#[derive(Clone, Copy, Debug, PartialEq, Eq, Error)]
pub enum ParseFault {
    /// A token that can't stand there, or the end of the text.
    #[error("unexpected text at {0}")]
    Unexpected(usize),
    /// `&&` where conditions are joined by `||`, or the other way round.
    #[error("&& and || mixed at {0}")]
    Mixed(usize),
    /// A token that opens something, where 200 things are open.
    #[error("nested too deeply at {0}")]
    TooDeep(usize),
    /// There is no memory for the program.
    #[error("out of memory")]
    Memory,
}
