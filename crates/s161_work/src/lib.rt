//! The work of a command line, over any source of files, reader and writers: `start` does it. What
//! else the program names is exported again.
#![tactic(auto)]

mod going;
mod printing;
pub mod prompt;
mod refusing;
pub mod waiting;
pub mod work;

pub use s161_base::{fault, files};
