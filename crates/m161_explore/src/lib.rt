//! The exploration of all states of a system: what is said holds of each list of events, in whatever
//! order and however long.
//!
//! ```text
//! list     events that the system accepts one behind the other, from its first state
//! view     the words by which a state is known again; what follows depends on the view alone
//! verdict  what is wrong with the last event of a list
//! end      a state at which a list may come to rest
//! order    the shorter list first; of two as long, the one that is less where they first differ
//! ```
//!
//! A view is kept as the numbers of its pieces, and each different piece once: views of a few hundred
//! words that are much alike take about a hundred bytes a state.
//!
//! What the system is, its caller says. This is a search in breadth over views, as explicit-state
//! checkers make it; the rest is this project's own.
#![tactic(auto)]

mod ends;
mod graph;
mod hash;
mod keys;
mod search;
mod system;
mod unfinished;
mod views;
mod whole;

pub use system::{Advanced, System};
pub use unfinished::{Unfinished, begin, go_on};
pub use whole::{Answer, explore, explore_with};
