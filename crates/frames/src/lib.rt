//! Frames: rows as lines of hexadecimal text, read into tables.
#![tactic(auto)]

pub mod digits;
pub mod fault;
pub mod frame;
pub mod kinds;
pub mod laws;
pub mod text;
