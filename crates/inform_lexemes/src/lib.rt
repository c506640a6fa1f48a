//! The lexemes of the Inform profile: its symbols and the words of its grammar, and how each is
//! spelled.
#![tactic(auto)]

pub mod keywords;
pub mod laws;
pub mod symbols;

pub use keywords::Keyword;
pub use symbols::Symbol;
