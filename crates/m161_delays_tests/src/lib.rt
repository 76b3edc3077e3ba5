//! Tests of the search over lists of delays, with runs that run no machine, and of trials that several
//! threads look at.
#![tactic(auto)]

pub mod marked;
pub mod table;
#[cfg(test)]
mod tests;
pub mod wide;
