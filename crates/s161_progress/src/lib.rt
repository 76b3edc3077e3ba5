//! How far long work is, for whoever waits for it.
//!
//! ```text
//! progress  what is done by now, counted by those who do it, in any number of threads
//! meter     shows it on standard error: at a terminal in one line, which is drawn again ten times a
//!           second and cleared in the end; elsewhere, where it is asked for, a line a second
//! ```
//!
//! What is shown is no part of what a command prints or says: it goes through a writer of its own, and a
//! `Cleared` output, before whose first byte the meter ends, is that output to every contract. Since other
//! threads count meanwhile, no clause says how far a command was when a line was drawn. All of this is this
//! project's own.
#![tactic(auto)]

mod amount;
mod cleared;
mod counter;
mod meter;

pub use amount::{Amount, Unit};
pub use cleared::Cleared;
pub use counter::Progress;
pub use meter::{Meter, Way};
