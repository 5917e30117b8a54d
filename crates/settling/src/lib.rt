//! Settling a text of frames: from the bytes that are read to the bytes that are printed.
#![tactic(auto)]

mod print;
pub mod settle;
