//! Texts and lines tried on the reader and the writers.
#![tactic(auto)]

#[cfg(test)]
mod faults;
#[cfg(test)]
mod written;
