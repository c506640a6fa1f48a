//! The tokens of a text of the Inform profile, and what each of them says to the grammar.
#![tactic(auto)]

// What there is.
mod fault_texts;
pub mod faults;
pub mod kinds;

// The pieces of a text, from single bytes up.
mod bytes;
mod insides;
mod numbers;
mod pieces;
mod runs;
mod signs;
mod strings;
mod words;

// The whole text, and what a token of it says.
mod exact_laws;
pub mod glances;
// Laws of tokens, and worked examples.
pub mod laws;
mod lexing;
mod meanings;
pub mod worked;

pub use faults::LexFault;
pub use glances::Glance;
pub use kinds::{Kind, PLACE_LIMIT, Token};
pub use lexing::tokens;
pub use meanings::{glance, name, text};
