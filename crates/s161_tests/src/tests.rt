//! Tests of the program's commands and of the assembler. `behind`, `program`, `run`,
//! `sample`, `faulty`, `going`, `over_files`, `prompt`, `segments`, `texts`, `traps` and `units` try the commands,
//! over the streams of `streams`.

mod asm;
mod behind;
mod faulty;
mod going;
mod over_files;
mod program;
mod prompt;
mod run;
mod sample;
mod segments;
mod streams;
mod texts;
mod traps;
mod units;
mod waiting;

use std::fmt::Debug;
use std::process::Abort;

/// Fails the test where a value isn't the expected one.
pub(crate) fn same<T: PartialEq + Debug + Copy>(rt: &impl Abort, found: T, expected: T) {
    assert_eq!(rt; found, expected);
}
