//! A program logic for the Inform profile: how a run is proved from the syntax of what runs.
#![tactic(auto)]

// What a program of directives holds, and whole runs.
pub mod laws;

// Worked routines.
pub mod examples;
