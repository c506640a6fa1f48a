//! Which routines a run enters, told by how many are open after each step, and the law that these
//! are the ones that a run notes.
#![tactic(auto)]

// The law, and small programs on which the definitions compute.
pub mod laws;
pub mod worked;
