//! Tests of the session of GDB's protocol, over a small run. What they expect was written by hand, from
//! the protocol's page.
#![tactic(auto)]

#[cfg(test)]
mod tests;
pub mod toy;
