//! A hall: many sessions of one database, which hear lines in turn and don't affect each other.
#![tactic(auto)]

pub mod addressing;
pub mod halls;

// Laws of what is said in a hall.
pub mod laws;

pub use addressing::{Address, address_in};
pub use halls::{HALL_LIMIT, Hall};
