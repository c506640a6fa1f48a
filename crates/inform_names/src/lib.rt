//! Acceptance of an Inform program: what each name means, what each place asks for, and the first
//! thing that is wrong.
#![tactic(auto)]

// What may be wrong, and what is said of it.
mod fault_texts;
mod faults;
mod limits;
mod refusals;

// What names mean.
mod meanings;
mod tables;
mod words;

// What is wrong, place by place.
mod changes;
mod conditions;
mod directives;
mod enclosures;
mod places;
mod statements;
mod values;

// The whole program.
mod accepted;
mod accepting;
mod names;

// Laws and worked examples.
pub mod laws;
pub mod worked;

pub use accepted::Accepted;
pub use accepting::accept;
pub use faults::NameFault;
pub use meanings::{Kind, Meaning, Value};
pub use names::{Entries, Names};
pub use tables::name_of;
pub use words::word;
