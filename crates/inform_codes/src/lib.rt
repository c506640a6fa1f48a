//! Routines of a generated program: written as flat codes in the order in which one reads a tree,
//! and grown into trees by one function.
#![tactic(auto)]

// What a routine is written in.
mod codes;
mod inform;

// What waits while it grows, and what each code makes of it.
mod conditions;
mod growths;
mod statements;
mod switches;
mod taking;
mod values;

// Bodies, and tables of routines.
mod growing;
mod numbering;
mod tables;

// Laws and worked routines.
pub mod examples;
pub mod laws;

pub use codes::Code;
pub use growing::{before, body, fork};
pub use inform_tree::{ProdOp, Relation, SumOp};
pub use numbering::numbered;
pub use tables::{Row, joined, routines};
