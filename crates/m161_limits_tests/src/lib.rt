//! Tests of the texts that the libraries read, at their limits.
#![tactic(auto)]

#[cfg(test)]
mod tests;
