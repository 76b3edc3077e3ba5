//! Worked rows over each pair of a TLB and a console, one list for all four.
#![tactic(auto)]

#[cfg(test)]
mod tests;
