//! How wide a word is.

/// The width of the words that a program computes with: 16 or 32 bits.
#[derive(Clone, Copy, Debug, PartialEq, Eq)]
pub enum Width {
    W16,
    W32,
}
