//! Programs to ELF files.
//!
//! The file of a program has a header for each of its segments, with p_flags 7 (read, write and
//! execute) and p_align 4, and after the table the segments' words, all in the program's order. With
//! symbols, the labels' names and addresses stand behind the words, in sections of their own.
#![tactic(auto)]

mod labels;
mod laws;
mod writer;

pub use labels::write_with_symbols;
pub use laws::{labels_are_listed, symbols_load_alike, written_has_few_faults, written_is_loaded};
pub use writer::write;
