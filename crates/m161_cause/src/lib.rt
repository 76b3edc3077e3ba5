//! Why a run in threads has no report: the causes and their names, apart from the threads, so that
//! what prints a cause doesn't wait for them.
#![tactic(auto)]

mod cause;

pub use cause::Cause;
