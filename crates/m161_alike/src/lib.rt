//! States of a machine that differ in time alone.
//!
//! ```text
//! time     Random and Count of each processor, the counts of Steps and events, the log
//! reads    a Step reads Random where it makes `tlbwr`, or `mfc0` of Random; and Count where it makes
//!          `mfc0` of Count. An idle one reads nothing, nor one that takes an interrupt or traps before
//! known    a set of pairs of a processor and one of the two registers
//! view     a state without the time that isn't known, and without the console's output. Count of a
//!          processor stays where its Compare isn't zero: the timer is armed
//! alike    two states are alike if their views are equal
//! ```
//!
//! The law: two states that are alike behave alike until a Step reads what isn't known. All of this
//! is this project's own.
#![tactic(auto)]

mod addresses;
mod board;
mod bounds;
mod known;
mod laws;
mod processor;
mod reads;
mod restored_board;
mod restored_memory;
mod restored_processor;
mod view_words;
mod words;

pub use addresses::{add_address, read_addresses, words_tell_their_addresses};
pub use board::write_board;
pub use bounds::{bounded_words_can_be_held, is_board_bounded, is_bounded};
pub use known::Known;
pub use laws::alike_states_behave_alike;
pub use processor::{words_tell_a_processor, write_processor};
pub use reads::{Reads, next_reads};
pub use restored_board::read_board;
pub use restored_memory::read_memory;
pub use restored_processor::read_processor;
pub use view_words::words_tell_a_view;
pub use words::{scan_memory, words_tell_memory, write_memory};
