//! The seeker: settles open rows beside a load, each with the first of its splits that passes.
#![tactic(auto)]

mod begin;
mod judge;
mod order;
pub mod seek;
mod settle;
mod trial;
