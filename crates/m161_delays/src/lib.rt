//! The search over lists of delays: every list of a class is looked at whose delays all have an effect,
//! up to the first whose run goes wrong.
//!
//! ```text
//! list     the places of a run by turns at which ready processors are passed over, in ascending order
//! useful   at each place of a list, more processors are ready than delays come there
//! class    the lists of at most so many numbers, each at least one number and below another
//! order    the shorter list first; of two as long, the one that is less where they first differ
//! jobs     so many threads look at the lists that differ in their last number alone
//! slice    the lists from one on, up to the first that goes wrong, or to so many runs
//! ```
//!
//! What makes the runs is the caller's own. Delay-bounded scheduling is that of Emmi, Qadeer and
//! Rakamarić, Delay-Bounded Scheduling, 2011; the rest is this project's own.
#![tactic(auto)]

mod alone;
mod last;
mod laws;
mod runs;
mod search;
mod slice;
mod walk;

pub use laws::{slice_is_of_whole, slices_join};
pub use m161_jobs::Tested;
pub use m161_order::Delays;
pub use runs::Runs;
pub use search::{Class, Searched, search_lists};
pub use slice::{Slice, SliceStop, search_alone, search_slice};
