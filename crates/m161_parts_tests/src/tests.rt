//! Tests of the crates below the machine, with words and values from outside. A file is named for
//! the crate that it tests.

mod alu;
mod console;
mod cpu;
mod decode;
mod isa;
mod ram;
mod tlb;

use std::fmt::Debug;
use std::process::Abort;

/// Fails the test where a value isn't the expected one.
pub(crate) fn same<T: PartialEq + Debug + Copy>(rt: &impl Abort, found: T, expected: T) {
    assert_eq!(rt; found, expected);
}
