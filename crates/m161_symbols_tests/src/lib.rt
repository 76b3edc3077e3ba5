//! Tests of the symbols of ELF files, of names of addresses, and of files with many segments.
#![tactic(auto)]

#[cfg(test)]
mod tests;
