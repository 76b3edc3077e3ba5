//! Tests of frames, acknowledgements, packets and moves. What they expect was written by hand, from the
//! protocol.
#![tactic(auto)]

pub mod listed;
#[cfg(test)]
mod tests;
