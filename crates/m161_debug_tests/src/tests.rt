//! Tests of the debugger. What is expected was worked out by hand from the kernels' words.

mod addresses;
mod conflicts;
mod fetched;
mod jumps;
mod names;
mod registers;
mod scenes;
mod sessions;
mod steps;
mod untils;

use std::fmt::Debug;
use std::process::Abort;

/// Fails the test where a value isn't the expected one.
pub(crate) fn same<T: PartialEq + Debug + Copy>(rt: &impl Abort, found: T, expected: T) {
    assert_eq!(rt; found, expected);
}
