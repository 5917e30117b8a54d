//! The lines that are written: frames of rows, and what became of a run.
#![tactic(auto)]

pub mod laws;
pub mod line;
pub mod write;
