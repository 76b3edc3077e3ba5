//! The commands that turn a text into an ELF file, and an ELF file or a run into a text: `as`, `dis` and
//! `trace`. The lines of a trace are written as the run goes on, so that the memory that it takes doesn't grow
//! with their number.
#![tactic(auto)]

pub mod assembly;
pub mod disassembly;
mod driven;
mod filter;
mod lines;
mod scheduled;
mod shared;
pub mod trace;
mod words;
