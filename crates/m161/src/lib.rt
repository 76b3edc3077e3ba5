//! The machine that the program `s161` runs, and the names that a program of one's own needs for
//! it.
//!
//! ```text
//! Machine    a machine with its log: boot, step, key, done, event, and the views
//! Core       a state of that machine alone, without a log
//! Events     a list of events, kept as runs
//! ```
//!
//! The machine of `m161_machine` works over any TLB and any console that prove their laws. Here they
//! are a TLB whose rows are found by a hash of the page, and a console that keeps its bytes in a ring.
#![tactic(auto)]

pub use m161_machine::{
    BoardWord, BootError, Conf, Conflict, Entry, Event, Events, Exception, Frame, Identifier,
    LinkUnit, LoadError, Outcome, Page, ProcessorState, Refusal, Reg, Register, Row, Runs, Start,
};

/// The TLB of the machine that the program runs.
pub type Tlb = m161_tlb_index::Index;

/// The console of that machine.
pub type Console = m161_console::RingConsole;

/// The machine that the program runs.
pub type Machine = m161_machine::Machine<Tlb, Console>;

/// A state of that machine.
pub type Core = m161_machine::Core<Tlb, Console>;
