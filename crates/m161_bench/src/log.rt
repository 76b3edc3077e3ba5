//! Writing the log of a run as text, and reading it back.

use crate::steps::run;
use m161::Machine;
use m161_steplog::{Mode, read_log, write_log};
use std::time::Instant;

/// The result of writing and reading.
#[derive(Clone, Copy)]
pub(crate) struct Measured {
    /// The bytes of the text.
    pub(crate) bytes: usize,
    /// The entries read back from it.
    pub(crate) entries: usize,
    /// The nanoseconds of the writing.
    pub(crate) write: u128,
    /// The nanoseconds of the reading.
    pub(crate) read: u128,
}

// The text of a machine's log, and the nanoseconds of its writing.
fn write_text(rt: &HostRuntime, machine: &Machine) -> Option<(String, u128)> {
    // So that the proof knows that only a strict machine's log has conflicts.
    machine.replay();
    let conf = machine.conf();
    let mode = Mode {
        link: conf.link,
        strict: conf.strict,
    };
    let Ok(log) = machine.copy_log(rt.alloc()) else {
        return None;
    };
    let start = Instant::now(rt).ok()?;
    let text = write_log(rt.alloc(), mode, &log).ok()?;
    let took = start.elapsed(rt).ok()?;
    Some((text, took.as_nanos()))
}

// How many entries a text has, and the nanoseconds of its reading.
fn read_text(rt: &HostRuntime, text: &str) -> Option<(usize, u128)> {
    let start = Instant::now(rt).ok()?;
    let entries = read_log(rt.alloc(), text).ok()?.entries;
    let took = start.elapsed(rt).ok()?;
    Some((entries.len(), took.as_nanos()))
}

/// Writes the log of a run of `steps` Steps as text, and reads it back.
pub(crate) fn measure(rt: &HostRuntime, image: &[u8], steps: u32) -> Option<Measured> {
    let machine = run(rt.alloc(), image, steps, steps)?;
    let (text, write) = write_text(rt, &machine)?;
    let (entries, read) = read_text(rt, text.as_str())?;
    Some(Measured {
        bytes: text.len(),
        entries,
        write,
        read,
    })
}
