//! Tests of the crates below the machine, with words and values from outside. A file is named
//! for the crate that it tests.
#![tactic(auto)]

#[cfg(test)]
mod tests;
