//! Who is told how far long work is: an interface and nobody, apart from what works and from what shows it.
//! What is told changes nothing in the work, so no clause speaks of it. This project's own.
#![tactic(auto)]

mod listener;

pub use listener::{Listener, Nobody};
