//! The states that a machine can reach, in whatever order and for however long its processors, its
//! console and its keys go on: the system of `m161_states`, over a machine that makes the events.
//!
//! ```text
//! question  a machine at boot, by what its events are judged, and what is known of time
//! place     a state of the exploration: a machine, and what is kept beside it
//! hand      such a state with the words of its view and the places where its memory may differ from
//!           boot's: an event, a view and another state cost what they change, not what RAM has
//! event     number p below the number of processors: a Step of p; then Done; then the next key
//! ```
//!
//! All of this is this project's own.
#![tactic(auto)]

mod advance;
mod encode;
mod exploring;
mod hand;
mod hang;
mod hang_laws;
mod judge;
mod kept;
mod machines;
mod named;
mod numbers;
mod onward;
mod path;
mod place;
mod question;
mod restore;
mod system;
mod told;
mod walk;
mod whole;

pub use exploring::{Exploring, begin_machine, go_on_machine};
pub use hand::Hand;
pub use hang::first_hang;
pub use hang_laws::{cut_keeps_hang, free_before, hanging_are_made, hung_is_hung, hung_never_ends};
pub use machines::Machines;
pub use named::{named_are_made, numbers_name};
pub use place::Place;
pub use question::can_be_asked;
pub use told::{SearchVerdict, Told, ends_of, tell, tell_run};
pub use whole::{Exploration, explore_machine, explore_machine_with};
