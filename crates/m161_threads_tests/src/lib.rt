//! Tests of the log's window, and of machines whose processors are threads.
#![tactic(auto)]

#[cfg(test)]
mod tests;
