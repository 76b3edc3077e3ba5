//! The system that an exploration of a machine's states looks at: a machine, with the keys that are
//! typed, what is kept of the watches, and how far the console's output is the one that is asked for.
//!
//! ```text
//! question    what is booted, by what the events are judged, and what is known of time
//! explored    a state of the exploration: the machine's state, and what is kept beside it
//! event       number p below the number of processors: a Step of p; then Done; then the next key
//! next        the state behind an event, where the machine accepts it. No event is refused for the
//!             number of those before it: an exploration is far from where a machine is worn
//! verdict     what is wrong with an accepted event: stale, reached, conflict, stuck or output
//! unknown     a Step reads time that isn't known, so the view of its state doesn't tell what it does
//! end         the machine is off, or stuck where the output excuses it
//! view        the words of the machine's view and of what is kept beside it
//! ```
//!
//! The laws: a valid state leads to valid ones; from two valid states with one view an event that
//! reads nothing unknown does the same, and leads to states with one view; and a state says of the
//! run that leads to it what the audit and the judge say. All of this is this project's own.
#![tactic(auto)]

mod laws;
mod run_laws;
mod verdict;

pub use laws::{
    alike_end, alike_next, alike_stop, alike_stored, alike_verdict, valid_next, valid_start,
};
pub use m161_alike::{Known, Reads};
pub use m161_machine::Conflict;
pub use run_laws::{
    agreed_tells, flag_tells, fresh_is_same, next_is_event, stale_is_audited, start_is_boot,
    verdict_is_first,
};
pub use verdict::{EventVerdict, Unknown};
