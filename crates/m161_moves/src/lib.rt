//! Moves along a run whose events are fixed: forwards to the first place where something stops, and
//! backwards to the last one.
//!
//! ```text
//! place   a number of events that were made; event j is made at place j
//! stops   breakpoints, watches, the mark, the interrupt flag; a Step of a processor that makes one; the ends
//! ```
//!
//! What a run is, and how it is gone along, is the caller's own.
#![tactic(auto)]

mod back;
mod doing;
mod laws;
mod looking;
mod moves;
mod reason;
mod run;
mod stopping;
mod thread;

pub use back::backwards;
pub use doing::{Activity, Doing};
pub use laws::{
    has_backwards, has_forwards, has_one_backwards, has_one_forwards, step_is_taken_back,
};
pub use moves::forwards;
pub use reason::Reason;
pub use run::{Access, Run, StepSeen};
pub use thread::thread_of;
