//! Whether a Step stores to a word of RAM: a Step of some list of events that a machine can reach, or one
//! of a list that is given.
//!
//! ```text
//! exploration  of a machine's states says what its events come to, and nothing of their stores
//! here         the same states are explored once more, up to the first store to a word; where there is
//!              one, it is most often among the first events
//! run          events in order, made up to the first store to a word
//! ```
//!
//! A watch of the audit names two words; one to which nothing is stored is most often a wrong one. All of
//! this is this project's own.
#![tactic(auto)]

mod find;
mod run;
mod storing;
mod watches;

pub use find::is_unstored;
pub use m161_machine::Event;
pub use run::stores_to;
pub use watches::{Unstored, unstored_watches};
