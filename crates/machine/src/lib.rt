//! The machine: it runs the jobs of a load's tasks tick by tick, earliest deadline first.
#![tactic(auto)]

pub mod answer;
mod calls;
mod clock;
mod copies;
mod entry;
mod line;
mod lines;
pub mod machine;
mod moves;
mod numbers;
mod opens;
mod piece;
mod table;
