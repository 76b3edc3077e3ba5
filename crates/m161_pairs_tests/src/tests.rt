//! The rows of files, configurations, logs, breakpoints, conflicts and threads, over each TLB and each
//! console.
//! Those of words on a machine run over all four pairs in `m161_tests`.

mod booting;
mod stopping;
mod strict;
mod threads;
mod words;

use std::fmt::Debug;
use std::process::Abort;

/// Fails the test where a value isn't the expected one.
pub(crate) fn same<T: PartialEq + Debug + Copy>(rt: &impl Abort, found: T, expected: T) {
    assert_eq!(rt; found, expected);
}
