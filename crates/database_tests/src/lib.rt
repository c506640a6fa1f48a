//! Tests of the crates that read, check and play a database: what no clause says, and that each
//! public call succeeds with ample memory. They stand apart, so that no crate is proved twice for
//! its tests.
#![tactic(auto)]

#[cfg(test)]
mod answers;
#[cfg(test)]
mod expecting;

// Consoles and shelves.
#[cfg(test)]
mod adapters;
#[cfg(test)]
mod consoles;
#[cfg(test)]
mod failing_files;
#[cfg(test)]
mod shelves;

// Texts, draws and requests.
#[cfg(test)]
mod draws;
#[cfg(test)]
mod requests;
#[cfg(test)]
mod scanning;

// Databases, and what a turn is made of.
#[cfg(test)]
mod actions;
#[cfg(test)]
mod formats;
#[cfg(test)]
mod games;
#[cfg(test)]
mod looks;
#[cfg(test)]
mod reports;
#[cfg(test)]
mod vocabularies;
