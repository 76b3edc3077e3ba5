//! The note that a terminal gets before a schedule is read from it.

use super::same;
use super::streams::{Memory, all};
use s161_work::prompt::{Prompted, reads_schedule};
use std::io::Read;
use std::test::Fail;

const NOTE: &str = "s161: note input (a schedule; end it with Ctrl-D)\n";

const SCHEDULE: &[u8] = b"s 0 3\n";

#[test]
fn a_note_is_written_once(rt: HostRuntime) -> Result<(), Fail> {
    let mut errors = Memory::new(rt.alloc(), usize::MAX, false);
    let mut first = [0u8; 4];
    let mut last = [0u8; 4];
    let mut prompted = Prompted::new(SCHEDULE, &mut errors, true);
    let lengths = (prompted.read(&mut first)?, prompted.read(&mut last)?);
    same(&rt, lengths, (4, 2));
    same(&rt, (&first, &last), (b"s 0 ", b"3\n\0\0"));
    let _input = prompted;
    same(&rt, errors.match_text(NOTE), all(NOTE));
    Ok(())
}

#[test]
fn an_unwanted_note_is_not_written(rt: HostRuntime) -> Result<(), Fail> {
    let mut errors = Memory::new(rt.alloc(), usize::MAX, false);
    let mut bytes = [0u8; 8];
    let mut prompted = Prompted::new(SCHEDULE, &mut errors, false);
    same(&rt, prompted.read(&mut bytes)?, 6);
    let _input = prompted;
    same(&rt, errors.match_text(NOTE), all(""));
    Ok(())
}

#[test]
fn a_note_that_is_refused_changes_nothing(rt: HostRuntime) -> Result<(), Fail> {
    let mut errors = Memory::new(rt.alloc(), 5, true);
    let mut bytes = [0u8; 8];
    let mut prompted = Prompted::new(SCHEDULE, &mut errors, true);
    same(&rt, prompted.read(&mut bytes)?, 6);
    Ok(())
}

// Whether a command may read a schedule.
fn is_told(rt: &HostRuntime, command: &str) -> Result<bool, Fail> {
    let words = vec![in rt.alloc();
        format!(in rt.alloc(); "s161")?,
        format!(in rt.alloc(); "{command}")?,
    ]?;
    Ok(reads_schedule(&words))
}

#[test]
fn three_commands_read_a_schedule(rt: HostRuntime) -> Result<(), Fail> {
    for command in ["run", "trace", "audit"] {
        same(&rt, is_told(&rt, command)?, true);
    }
    for command in ["runs", "schedule", "debug", "--help", ""] {
        same(&rt, is_told(&rt, command)?, false);
    }
    same(&rt, reads_schedule(&[]), false);
    Ok(())
}
