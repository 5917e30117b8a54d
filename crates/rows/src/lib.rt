//! Rows of a task table: bare ones, which are any numbers, and made ones, which keep the rules of their kind.
#![tactic(auto)]

pub mod bare;
pub mod bounded;
pub mod kind;
pub mod open;
pub mod plain;
mod rules;
pub mod settled;
