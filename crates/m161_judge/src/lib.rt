//! Verdicts on runs: whether a list of events, made from boot, goes wrong.
//!
//! ```text
//! stale     a Step uses an old row of the TLB, as the audit finds it
//! reached   a Step fetches a word at an address that is never to be reached
//! conflict  a strict machine is off, by two rows of a TLB that would overlap
//! stuck     after some events no policy has an event to choose, and the console hasn't sent what is
//!           asked for, if anything is
//! output    the machine is off, and the console hasn't sent what is asked for
//! end       there are no more events, the machine isn't off, and was never stuck
//! ```
//!
//! The verdict is the first of these that holds, in this order, and says how many of the events it
//! needs. The last two are only for a run whose output is asked for. A list of which an event is
//! refused before the machine is off has none. All of this is this project's own.
#![tactic(auto)]

mod booted;
mod events;
mod first;
mod goal;
mod laws;
mod list;
mod memory;
mod on;
mod reach;
mod run;
mod seeker;
mod seen;
mod steps;
mod stuck;
mod verdict;
mod walk;

pub use booted::Booted;
pub use first::First;
pub use goal::Goal;
pub use laws::{cut_keeps_verdict, first_is_no_worse, one_verdict, stuck_is_no_choice};
pub use list::{judge, judge_events};
pub use m161_audit::{AuditError, Watch};
pub use m161_drive::Policy;
pub use m161_machine::{BootError, Conf, Event, LinkUnit};
pub use memory::StepMemory;
pub use on::judge_rest;
pub use run::{JudgedRun, judge_booted, judge_run};
pub use verdict::{Judged, Verdict};
