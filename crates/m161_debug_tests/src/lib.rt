//! Tests of the debugger: its commands and texts, on runs of small kernels.
#![tactic(auto)]

#[cfg(test)]
mod tests;
