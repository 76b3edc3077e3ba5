//! A run whose events are a list, made again from the state at boot: it goes forwards by an event, and
//! back to any place.
//!
//! ```text
//! here   the state at the place where it stands: it tells what the next event is before that is made,
//!        and whether it is refused
//! kept   the state at an earlier place: the way back begins there, or else at boot. Then one is kept
//!        anew, at most 65,536 events before the goal
//! ```
#![tactic(auto)]

mod kept;
mod laws;
mod load;
mod replay;
mod seen;
mod standing;
mod target;
mod traced;
mod views;

pub use laws::seen_is_made;
pub use m161_moves::{Access, Run, StepSeen};
pub use m161_server::Target;
pub use replay::Replay;
