//! Tests of symbols. What is expected of a file that was written elsewhere was read from it by
//! binutils' `readelf -s`; what is expected of a file that is built here was worked out by hand.

mod built;
mod labels;
mod layers;
mod names;
mod table;
mod texts;

use std::fmt::Debug;
use std::process::Abort;

/// Fails the test where a value isn't the expected one.
pub(crate) fn same<T: PartialEq + Debug + Copy>(rt: &impl Abort, found: T, expected: T) {
    assert_eq!(rt; found, expected);
}
