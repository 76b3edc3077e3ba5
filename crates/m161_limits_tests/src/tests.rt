//! Tests of logs that end early or have a bad line, of the longest schedule, and of numbers that are
//! too large for a source.

mod logs;
mod schedules;
mod sources;

use std::fmt::Debug;
use std::process::Abort;

/// Fails the test where a value isn't the expected one.
pub(crate) fn same<T: PartialEq + Debug + Copy>(rt: &impl Abort, found: T, expected: T) {
    assert_eq!(rt; found, expected);
}
