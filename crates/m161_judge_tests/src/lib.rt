//! Tests of verdicts, on runs of small kernels.
#![tactic(auto)]

#[cfg(test)]
mod tests;
