//! What everything means: tasks, lawful runs, demand, the verdict on a list of tasks, and the machine's steps,
//! with the theorems about them. The definitions are in `specs/`; here are the refusals, the lengths of windows that are asked for, and a function for each theorem.
#![tactic(auto)]

pub mod laws;
pub mod length;
pub mod refusal;
