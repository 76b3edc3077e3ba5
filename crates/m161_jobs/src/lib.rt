//! Many trials, looked at by several threads at once: the answer is that of one thread.
//!
//! ```text
//! trial    one of many, numbered from 0; it is right, and cut or not, or goes wrong
//! answer   the first trial that goes wrong; or, where all are right, how many of them are cut
//! part     trials with numbers in a row, which one thread looks at, one after the other
//! round    the next trials, parted among the threads; the first part with a wrong trial decides
//! ```
//!
//! What a trial is is the caller's own. All of this is this project's own.
#![tactic(auto)]

mod parts;
mod rounds;
mod trials;

pub use rounds::try_each;
pub use trials::{Tested, Trials, Tried};
