//! Tests of the machine and of the crates over it, with words and registers from outside. A file is
#![tactic(auto)]

#[cfg(test)]
mod tests;
