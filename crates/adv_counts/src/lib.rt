//! Counts of numbers, each of which stands still at the greatest that it can be.
#![tactic(auto)]

// One count more, and counts that have their own memory.
mod counts;
mod tallies;

// Laws of counts.
pub mod laws;

pub use counts::count;
pub use tallies::Tally;
