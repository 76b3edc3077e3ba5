//! Sessions over a small run.

mod rows;
mod streams;

use std::fmt::Debug;
use std::process::Abort;

/// Fails the test where a value isn't the expected one.
pub(crate) fn same<T: PartialEq + Debug + Copy>(rt: &impl Abort, found: T, expected: T) {
    assert_eq!(rt; found, expected);
}
