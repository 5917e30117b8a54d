//! Splits of open rows: which due offset the first piece gets.
#![tactic(auto)]

pub mod splitter;
pub mod splitters;
