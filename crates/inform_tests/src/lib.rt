//! Tests of the crates of the Inform profile: what no clause says, and that each public call
//! succeeds with ample memory. They stand apart, so that no crate is proved twice for its tests.
#![tactic(auto)]

#[cfg(test)]
mod expecting;
#[cfg(test)]
mod lexemes;
#[cfg(test)]
mod names;
#[cfg(test)]
mod parser;
#[cfg(test)]
mod printer;
#[cfg(test)]
mod runs;
#[cfg(test)]
mod simplifying;
#[cfg(test)]
mod texts;
#[cfg(test)]
mod tokens;
#[cfg(test)]
mod trees;
