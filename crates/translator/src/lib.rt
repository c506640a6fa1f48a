//! A database as an Inform program, whose text is faithful to it.
#![tactic(auto)]

// What is refused.
mod wide;

/// Why a database isn't translated.
pub mod faults;

// What is said of it.
mod fault_texts;

// The text.
mod translating;

// The law.
pub mod laws;

pub use faults::TransFault;
pub use translating::translate;
pub use wide::wide_at;
