//! Loads: whatever means a list of tasks, asked through one set of questions.
#![tactic(auto)]

pub mod factor;
pub mod lent;
pub mod load;
pub mod multiple;
pub mod named;
pub mod pair;
pub mod slowed;
pub mod table;
