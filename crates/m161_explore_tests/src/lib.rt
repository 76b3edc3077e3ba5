//! Tests of the exploration, with systems that are tables.
#![tactic(auto)]

pub mod long;
pub mod table;
#[cfg(test)]
mod tests;
