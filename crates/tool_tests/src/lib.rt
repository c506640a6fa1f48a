//! Tests of the program's one call: what no clause says, as plays and reports that were worked out
//! by hand, and that a request with ample memory is done. They stand apart, so that `scott_tool` is
//! not proved twice for its tests.
#![tactic(auto)]

#[cfg(test)]
mod expecting;

// Games, and how a command is given to one.
#[cfg(test)]
mod games;
#[cfg(test)]
mod trying;

// What is expected, as tables.
#[cfg(test)]
mod coverage;
#[cfg(test)]
mod halls;
#[cfg(test)]
mod lines;
#[cfg(test)]
mod plays;
#[cfg(test)]
mod positions;
#[cfg(test)]
mod refusals;
#[cfg(test)]
mod runs;
#[cfg(test)]
mod simplifications;
#[cfg(test)]
mod sources;
#[cfg(test)]
mod steps;
#[cfg(test)]
mod translations;

// The tests.
#[cfg(test)]
mod answers;
#[cfg(test)]
mod demos;
#[cfg(test)]
mod failing;
#[cfg(test)]
mod hostile;
#[cfg(test)]
mod pieces;
#[cfg(test)]
mod sessions;
