//! Tests of driven runs. The events that are expected were worked out by hand, or by a program that
//! knows no machine, only which processors are ready after which Steps, and that keeps priorities as
//! a list of processors from which the falling one is taken out and put in again.

mod keys;
mod machines;
mod notes;
mod orders;
mod runs;
mod turns;

use std::fmt::Debug;
use std::process::Abort;

/// Fails the test where a value isn't the expected one.
pub(crate) fn same<T: PartialEq + Debug + Copy>(rt: &impl Abort, found: T, expected: T) {
    assert_eq!(rt; found, expected);
}
