//! Tests of explorations of a machine, on small kernels.
#![tactic(auto)]

#[cfg(test)]
mod tests;
