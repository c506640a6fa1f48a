//! Tests of what is played beside the program's own games: what no clause says, and that each
//! public call succeeds with ample memory. They stand apart, so that no crate is proved twice for
//! its tests.
#![tactic(auto)]

#[cfg(test)]
mod databases;
#[cfg(test)]
mod demonstrations;
#[cfg(test)]
mod expecting;
#[cfg(test)]
mod halls;
#[cfg(test)]
mod made_games;
#[cfg(test)]
mod positions;
