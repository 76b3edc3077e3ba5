//! Tests of the machine and of the crates over it, with words and registers from outside. A file is
//! named for the crate that it tests; `instructions` and `programs` run words on a machine. A worked
//! row goes into `programs`, or with other events into `traps`, `cop0`, `tlb`, `fetches`, `bus` or
//! `processors`, in the form that `listing` says; one of links to lines into `links`. `cores` makes
//! the calls of a state without a log. `sample` runs a whole small kernel of two processors, and
//! variants of it.

mod audit;
mod bus;
mod cop0;
mod cores;
mod dis;
mod elf;
mod fetches;
mod instructions;
mod links;
mod listing;
mod machine;
mod processors;
mod programs;
mod sample;
mod steplog;
mod tlb;
mod traps;

use std::fmt::Debug;
use std::process::Abort;

/// Fails the test where a value isn't the expected one. An `assert_eq!` in a test costs the prover
/// seconds, a call of this nearly nothing.
pub(crate) fn same<T: PartialEq + Debug + Copy>(rt: &impl Abort, found: T, expected: T) {
    assert_eq!(rt; found, expected);
}
