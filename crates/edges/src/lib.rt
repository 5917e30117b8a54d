//! Tests of rows, tables and factors at the edges of their rules.
#![tactic(auto)]

#[cfg(test)]
mod tests;
