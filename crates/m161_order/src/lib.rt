//! The orders in which a driven run makes the Steps of ready processors, apart from the machine, so
//! that what reads a command line doesn't wait for it.
#![tactic(auto)]

mod delays;
mod order;

pub use delays::{DelayError, Delays};
pub use order::{Order, OrderError};
