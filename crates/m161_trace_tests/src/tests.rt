//! Tests of traces. The lines that are expected were written by hand, from what the words do.

mod board;
mod loads;
mod processors;
mod sample;
mod traced;

use std::fmt::Debug;
use std::process::Abort;

/// Fails the test where a value isn't the expected one.
pub(crate) fn same<T: PartialEq + Debug + Copy>(rt: &impl Abort, found: T, expected: T) {
    assert_eq!(rt; found, expected);
}
