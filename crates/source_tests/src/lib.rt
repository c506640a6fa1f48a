//! Tests of the crates of the source language: what no clause says, and that each public call
//! succeeds with ample memory. They stand apart, so that no crate is proved twice for its tests.
#![tactic(auto)]

#[cfg(test)]
mod compiling;
#[cfg(test)]
mod decompiling;
#[cfg(test)]
mod expecting;
#[cfg(test)]
mod reading;
