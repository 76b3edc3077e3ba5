//! The events of a list that a machine refuses before it is off.
//!
//! ```text
//! audit   a refused event changes nothing, and the audit goes on with the next one
//! here    how many of an audit's events were refused before the machine was off, and the first one: a
//!         schedule of another machine, or a damaged one, is refused in places
//! ```
//!
//! All of this is this project's own.
#![tactic(auto)]

mod refusals;

pub use m161_machine::{Events, Refusal};
pub use refusals::{Refusals, find_refusals};
