//! The command that debugs a machine, and answers each line of its input as it comes: commands of a
//! session over the events of a schedule, a log or an order; and the program's own lines.
//!
//! ```text
//! help         prints a line for each command
//! quit         ends the session
//! j K          goes to the state before event K of the session, and prints: at K
//!              back: the events that are undone come again, before those that are left
//!              on: the events that are left are made up to there, whatever the breakpoints; where one
//!              is refused or switches the machine off, it stops and prints what a run prints
//! y N          the last N events that were made, 1 to 1,024, as the lines of a trace
//! #..          answers nothing, as an empty line does
//! ```
//!
//! K and N are decimal, without leading zeros, and below 2^64. Spaces and tabs count as one space between
//! words, and as none around them. An error is printed as `? NAME`; where it is about what was typed, a
//! note on standard error says what the command takes. The lines and their texts are this project's own.
//!
//! And the command that serves GDB on a run over the same events, by m161_server's sessions.
#![tactic(auto)]

mod ahead;
mod answer;
mod asked;
mod blanks;
pub mod debug;
mod debugged;
pub mod gdb;
mod help;
mod last;
mod left;
mod line;
mod notes;
mod opening;
mod serving;

use m161::{Console, Tlb};

/// The session that shows the machine.
pub type Session = m161_debug::Session<Tlb, Console>;
