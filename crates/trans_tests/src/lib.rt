//! Tests of the crates of a generated program: that each public call succeeds with ample memory.
//! They stand apart, so that no crate is proved twice for its tests.
#![tactic(auto)]

#[cfg(test)]
mod calls;
#[cfg(test)]
mod codes;
#[cfg(test)]
mod expecting;
#[cfg(test)]
mod games;
#[cfg(test)]
mod lines;
#[cfg(test)]
mod sizes;
