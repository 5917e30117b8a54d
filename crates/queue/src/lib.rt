//! One queue for every type of records whose order is total: it lies over lent places and gives out the first record.
#![tactic(auto)]

pub mod order;
pub mod queue;
pub mod records;
mod sift;
