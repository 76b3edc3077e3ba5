//! Tests of states that are alike, on small kernels.
#![tactic(auto)]

#[cfg(test)]
mod tests;
