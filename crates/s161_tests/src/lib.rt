//! Tests of the program's commands and of the assembler.
#![tactic(auto)]

#[cfg(test)]
mod tests;
