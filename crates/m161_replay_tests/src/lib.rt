//! Tests of moves along runs of kernels. Where they stop was reckoned from those runs: see the rows.
#![tactic(auto)]

#[cfg(test)]
mod tests;
