//! The auditor of TLB shootdown: whether a run uses a mapping after its shootdown is over.
//!
//! ```text
//! watch     a page of an address space, the word of its page table's entry, and a word that the
//!           initiator stores to when it goes on
//! gone on   the entry was stored to, and after the last time the other word was
//! old       by the entry the page isn't valid, or has another frame than the row of the TLB, or may
//!           not be written although the row lets it be
//! stale     the initiator has gone on, and a Step gets a physical address of the page through an
//!           old row, while EntryHi has the address space's identifier
//! ```
//!
//! Source: Black and others, Translation Lookaside Buffer Consistency: A Software Approach, 1989:
//! after the initiator has gone on, no processor uses the old mapping. That a word in memory marks
//! this moment is this project's own.
#![tactic(auto)]

mod finding;
mod going;
mod laws;
mod run;
mod shootdown;
mod stale;
mod text;
mod watch;

pub use finding::{AuditError, Finding};
pub use going::Auditor;
pub use laws::is_found_in_parts;
pub use m161_machine::{BootError, Conf, Event, Events, LinkUnit};
pub use m161_steplog::TextFault;
pub use run::{audit, audit_core, audit_events, audit_events_with};
pub use text::read_watches;
pub use watch::Watch;
