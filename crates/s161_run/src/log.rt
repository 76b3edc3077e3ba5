//! The log of a run: its last entries, as many as are shown.

ghost use Rattle.std.specs.Prelude.{◌≡◌, ◌++◌, ◌-◌, [], IfOk, OnOk, length, string_bytes};
ghost use Rattle.std.specs.List.{All};
ghost use Rattle.m161_machine.specs.History.{FitsMode};
ghost use Rattle.m161_machine.specs.declared.event.Entry.{Entry as EntryValue};
ghost use Rattle.s161_run.specs.Runs.{shown_log};
ghost use Rattle.s161_run.specs.helpers.Shown.{IsShown, room_of};

use circular_buffer::HeapCircularBuffer;
use m161::{Core, Machine};
use m161_machine::{Conf, Entry, PackedEntry};
use m161_steplog::{Mode, machine_line, write_log, write_tail};
use s161_base::machines::image_digest;
use s161_command::Shown;
use std::alloc::{AllocError, Global};

/// An empty log with room for the entries that are shown: none, or as many as the configuration says.
///
/// # Errors
/// Memory was refused.
pub(crate) fn new_log(
    alloc: Global,
    conf: Conf,
    shown: Shown,
) -> Result<HeapCircularBuffer<PackedEntry>, AllocError>
    ensures { IfOk result (λ log. (log.capacity ≡ room_of shown conf.log) × (log.items ≡ [])) }
{
    let room = match shown {
        Shown::Summary | Shown::Output => 0,
        Shown::SummaryAndLog | Shown::Log => conf.log as usize,
    };
    HeapCircularBuffer::with_capacity(alloc, room)
}

// The entries of a log.
fn entries_of(
    alloc: Global,
    log: &HeapCircularBuffer<PackedEntry>,
) -> Result<Vec<Entry>, AllocError>
    ensures { IfOk result (λ entries. entries.items ≡ log.now.items) }
{
    let (front, back) = log.as_slices();
    let mut entries = Vec::with_capacity(alloc, log.len())?;
    push_entries(&mut entries, front)?;
    push_entries(&mut entries, back)?;
    Ok(entries)
}

// Appends these entries.
fn push_entries(entries: &mut Vec<Entry>, packed: &[PackedEntry]) -> Result<(), AllocError>
    ensures { OnOk result (entries.new.items ≡ entries.old.items ++ packed.now) }
{
    for entry in packed {
        entries.push(entry.entry())?;
    }
    Ok(())
}

// The machine line of a configuration and a file, and the text of a log's entries, before which so
// many were dropped.
fn log_text(
    alloc: Global,
    conf: Conf,
    file: &[u8],
    dropped: u64,
    entries: &[Entry],
) -> Result<String, AllocError>
    requires { All (λ (e : EntryValue). FitsMode conf.strict e.outcome) entries.now }
    ensures { IfOk result (λ text. string_bytes text
        ≡ shown_log conf file.now dropped entries.now) }
{
    let mut text = machine_line(alloc, conf.ram, conf.processors, &image_digest(file))?;
    let mode = Mode {
        link: conf.link,
        strict: conf.strict,
    };
    let log = match dropped {
        0 => write_log(alloc, mode, entries)?,
        dropped => write_tail(alloc, mode, dropped, entries)?,
    };
    text.push_str(log.as_str())?;
    Ok(text)
}

/// The text of the log of a run that ended in this state, with the machine line, where it is shown.
///
/// # Errors
/// Memory was refused.
pub(crate) fn log_of_run(
    alloc: Global,
    core: &Core,
    log: &HeapCircularBuffer<PackedEntry>,
    file: &[u8],
    shown: Shown,
) -> Result<String, AllocError>
    requires { All (λ (e : EntryValue). FitsMode core.now.state.conf.strict e.outcome) log.now.items }
    ensures { IfOk result (λ text. IsShown shown (string_bytes text)
        (shown_log core.now.state.conf file.now (core.now.state.made - length log.now.items)
        log.now.items)) }
{
    match shown {
        Shown::Summary | Shown::Output => return Ok(String::new(alloc)),
        Shown::SummaryAndLog | Shown::Log => {}
    }
    let entries = entries_of(alloc, log)?;
    let dropped = core.made().saturating_sub(entries.len() as u64);
    log_text(alloc, core.conf(), file, dropped, &entries)
}

/// The text of a machine's log, with the machine line, where it is shown.
///
/// # Errors
/// Memory was refused.
pub(crate) fn log_of_machine(
    alloc: Global,
    machine: &Machine,
    file: &[u8],
    shown: Shown,
) -> Result<String, AllocError>
    ensures { IfOk result (λ text. IsShown shown (string_bytes text)
        (shown_log machine.now.start.conf file.now machine.now.base.made machine.now.log)) }
{
    match shown {
        Shown::Summary | Shown::Output => return Ok(String::new(alloc)),
        Shown::SummaryAndLog | Shown::Log => {}
    }
    // So that the proof knows that only a strict machine's log has conflicts.
    machine.replay();
    let entries = machine.copy_log(alloc)?;
    log_text(alloc, machine.conf(), file, machine.base().made(), &entries)
}
