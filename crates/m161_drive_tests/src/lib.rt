//! Tests of driven runs: the events that policies choose on machines that run small kernels.
#![tactic(auto)]

#[cfg(test)]
mod tests;
