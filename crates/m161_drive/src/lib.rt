//! Driven runs: a policy chooses each event from the machine's state.
//!
//! ```text
//! policy   an order of the processors' Steps, when a byte in the console's latch is sent, and which
//!          keys are typed, and when
//! cursor   what a policy has to know of the run so far
//! choice   the first of these that applies: the console has sent its byte; a key; a Step of a ready
//!          processor by the order; a Step of a processor whose timer runs; none
//! ready    a processor whose Step isn't idle
//! orders   turns of n Steps; turns with delays; at random; by priorities that change at random Steps
//! ```
//!
//! A driven run is a run along a list of events like any other: what the policy chose can be written
//! down and made again. All of this is this project's own, but for PCG32's words (O'Neill 2014) and
//! the order by priorities (Burckhardt and others, A Randomized Scheduler with Probabilistic
//! Guarantees of Finding Bugs, 2010).
#![tactic(auto)]

mod cursor;
mod delayed;
mod laws;
mod notes;
mod on;
mod orders;
mod policy;
mod ranking;
mod ready;
mod run;
mod turns;
mod words;

pub use cursor::Cursor;
pub use laws::{
    chooses_accepted, goes_on_whole, key_is_typed, key_is_unread, keys_are_apart,
    no_key_is_counted, stays_asleep,
};
pub use m161_machine::{Core, Event, PackedEntry, Refusal};
pub use m161_order::{DelayError, Delays, Order, OrderError};
pub use notes::{Notes, Unnoted};
pub use on::drive_on;
pub use policy::Policy;
pub use ready::is_asleep;
pub use run::{Driven, Stop, drive, turn};
