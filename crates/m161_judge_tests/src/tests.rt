//! Tests of verdicts. What is expected was worked out by hand from the kernels' words.

mod kernels;
mod lists;
mod refused;
mod runs;
mod trapped;

use std::fmt::Debug;
use std::process::Abort;

/// Fails the test where a value isn't the expected one.
pub(crate) fn same<T: PartialEq + Debug + Copy>(rt: &impl Abort, found: T, expected: T) {
    assert_eq!(rt; found, expected);
}
