//! Tests of the log's window, and of machines whose processors are threads: runs, bursts, what
//! workers do at the same time, and where they meet. `left` says what a machine has to be like.

mod bursts;
mod left;
mod meeting;
mod threads;
mod window;
mod workers;

use std::fmt::Debug;
use std::process::Abort;

/// Fails the test where a value isn't the expected one.
pub(crate) fn same<T: PartialEq + Debug + Copy>(rt: &impl Abort, found: T, expected: T) {
    assert_eq!(rt; found, expected);
}
