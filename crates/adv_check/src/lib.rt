//! The report on a database: how much there is of each thing, and each place that names something
//! that isn't there.
#![tactic(auto)]

// What is found.
pub mod findings;

// What is wrong with one number, and with each entry of the lists.
mod adding;
mod entries;
mod faults;

// All warnings, and the text of the report.
mod reporting;
mod searching;

// Laws of the above.
pub mod laws;

pub use findings::{Part, Warning, What};
pub use reporting::report;
pub use searching::warnings;
