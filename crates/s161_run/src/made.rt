//! The events of a run, made with what is kept of them: its log, what is watched of its traps, and the
//! lines of all where they are counted.

ghost use Rattle.std.specs.Prelude.{◌≡◌, [], IfOk, None, string_bytes, true};
ghost use Rattle.m161_machine.specs.History.{events_of};
ghost use Rattle.m161_order.specs.Order.{order_fault};
ghost use Rattle.m161_traps.specs.Shown.{traps_text};
ghost use Rattle.m161_traps.specs.Traps.{trap_lines};
ghost use Rattle.s161_run.specs.Runs.{told_traps};
ghost use Rattle.s161_run.specs.helpers.Made.{IsDrivenMade, IsMade};

use crate::behind::make_behind;
use crate::events::{RunStop, make_events};
use circular_buffer::HeapCircularBuffer;
use m161::{Core, Machine};
use m161_drive::Notes;
use m161_machine::{Entry, Event, Events, PackedEntry};
use m161_traps::{Watch, find_traps, show_traps};
use s161_command::Drive;
use s161_progress::Progress;
use std::alloc::{AllocError, Global};

/// Events that were made.
#[derive(Drop)]
pub(crate) struct Made {
    /// Why no more were.
    pub(crate) stop: RunStop,
    /// The last entries, as many as there is room for.
    pub(crate) log: HeapCircularBuffer<PackedEntry>,
    /// The lines of the traps; empty where they aren't counted.
    pub(crate) traps: String,
    /// What was watched of all entries.
    pub(crate) watch: Watch,
}

// The last entries, and what is watched of all.
#[derive(Drop)]
struct Watched<'a> {
    log: HeapCircularBuffer<PackedEntry>,
    watch: Watch,
    progress: &'a Progress,
}

impl<'a> Notes for Watched<'a> {
    ghost use Rattle.std.specs.Prelude.{◌≡◌};
    ghost use Rattle.circular_buffer.specs.Buffer.{keep_last};
    ghost use Rattle.m161_traps.specs.Watching.{IsWatched};

    ghost has = { λ room kept so_far. (kept.log.capacity ≡ room) × (kept.log.items ≡ keep_last room so_far)
        × IsWatched kept.watch so_far };

    fn add(&mut self, entries: &[PackedEntry]) -> Result<(), AllocError> {
        self.log.add(entries)?;
        self.watch.add(entries)?;
        self.progress.add(entries.len() as u64);
        Ok(())
    }
}

// The last entries, what is watched of all, and all events.
#[derive(Drop)]
struct WatchedWithEvents<'a> {
    log: HeapCircularBuffer<PackedEntry>,
    watch: Watch,
    events: Vec<Event>,
    progress: &'a Progress,
}

impl<'a> Notes for WatchedWithEvents<'a> {
    ghost use Rattle.std.specs.Prelude.{◌≡◌};
    ghost use Rattle.circular_buffer.specs.Buffer.{keep_last};
    ghost use Rattle.m161_machine.specs.History.{events_of};
    ghost use Rattle.m161_traps.specs.Watching.{IsWatched};

    ghost has = { λ room kept so_far. (kept.log.capacity ≡ room) × (kept.log.items ≡ keep_last room so_far)
        × IsWatched kept.watch so_far × (kept.events.items ≡ events_of so_far) };

    fn add(&mut self, entries: &[PackedEntry]) -> Result<(), AllocError> {
        self.log.add(entries)?;
        self.watch.add(entries)?;
        self.events.add(entries)?;
        self.progress.add(entries.len() as u64);
        Ok(())
    }
}

// The events of these entries.
fn events_made(alloc: Global, entries: &[Entry]) -> Result<Vec<Event>, AllocError>
    ensures { IfOk result (λ events. events.items ≡ events_of entries.now) }
{
    let mut events = Vec::new(alloc);
    for entry in entries {
        events.push(entry.event)?;
    }
    Ok(events)
}

// The lines of the traps of events that are made on a machine.
fn lines_of(alloc: Global, core: &mut Core, events: &[Event]) -> Result<String, AllocError>
    ensures { IfOk result (λ text. string_bytes text
        ≡ traps_text (trap_lines core.old.state events.now)) }
{
    let lines = find_traps(alloc, core, events)?;
    show_traps(alloc, &lines)
}

/// Makes the events of a schedule, until one switches the machine off or is refused. Keeps the last
/// entries in this log, which is empty, and counts the traps if it is told to.
///
/// # Errors
/// Memory was refused.
pub(crate) fn make_scheduled(
    alloc: Global,
    core: &mut Core,
    events: &Events,
    log: HeapCircularBuffer<PackedEntry>,
    traps: bool,
    progress: &Progress,
) -> Result<Made, AllocError>
    requires { log.items ≡ [] }
    ensures { IfOk result (λ made. IsMade core.old.state events.now log.capacity traps core.new.state
        made.stop made.log.items (string_bytes made.traps) made.watch) }
{
    if traps {
        return count_scheduled(alloc, core, events, log, progress);
    }
    let mut watched = Watched {
        log,
        watch: Watch::new(),
        progress,
    };
    let stop = make_events(core, events, &mut watched)?;
    let Watched { log, watch, .. } = watched;
    Ok(Made {
        stop,
        log,
        traps: String::new(alloc),
        watch,
    })
}

// The same, and counts the traps: of the same events, made again on a copy of the machine.
fn count_scheduled(
    alloc: Global,
    core: &mut Core,
    events: &Events,
    log: HeapCircularBuffer<PackedEntry>,
    progress: &Progress,
) -> Result<Made, AllocError>
    requires { log.items ≡ [] }
    ensures { IfOk result (λ made. IsMade core.old.state events.now log.capacity true core.new.state
        made.stop made.log.items (string_bytes made.traps) made.watch) }
{
    let mut first = core.copy(alloc)?;
    let mut kept = WatchedWithEvents {
        log,
        watch: Watch::new(),
        events: Vec::new(alloc),
        progress,
    };
    let stop = make_events(core, events, &mut kept)?;
    let WatchedWithEvents {
        log,
        watch,
        events,
        ..
    } = kept;
    let traps = lines_of(alloc, &mut first, &events)?;
    Ok(Made {
        stop,
        log,
        traps,
        watch,
    })
}

/// Makes the first events and then those that the options' policy chooses, and keeps and counts the same
/// of them.
///
/// # Errors
/// Memory was refused.
pub(crate) fn make_chosen(
    alloc: Global,
    core: &mut Core,
    first: &Events,
    options: Drive<'_>,
    keys: &[u8],
    log: HeapCircularBuffer<PackedEntry>,
    traps: bool,
    progress: &Progress,
) -> Result<Made, AllocError>
    requires order { order_fault options.order ≡ None }
    requires empty { log.items ≡ [] }
    ensures { IfOk result (λ made. IsDrivenMade options.entry keys.now core.old.state first.now
        log.capacity traps core.new.state made.stop made.log.items (string_bytes made.traps) made.watch) }
{
    if traps {
        return count_chosen(alloc, core, first, options, keys, log, progress);
    }
    let mut watched = Watched {
        log,
        watch: Watch::new(),
        progress,
    };
    let stop = make_behind(core, first, options, options.events, keys, &mut watched)?;
    let Watched { log, watch, .. } = watched;
    Ok(Made {
        stop,
        log,
        traps: String::new(alloc),
        watch,
    })
}

// The same, and counts the traps.
fn count_chosen(
    alloc: Global,
    core: &mut Core,
    first: &Events,
    options: Drive<'_>,
    keys: &[u8],
    log: HeapCircularBuffer<PackedEntry>,
    progress: &Progress,
) -> Result<Made, AllocError>
    requires order { order_fault options.order ≡ None }
    requires empty { log.items ≡ [] }
    ensures { IfOk result (λ made. IsDrivenMade options.entry keys.now core.old.state first.now
        log.capacity true core.new.state made.stop made.log.items (string_bytes made.traps) made.watch) }
{
    let mut before = core.copy(alloc)?;
    let mut kept = WatchedWithEvents {
        log,
        watch: Watch::new(),
        events: Vec::new(alloc),
        progress,
    };
    let stop = make_behind(core, first, options, options.events, keys, &mut kept)?;
    let WatchedWithEvents {
        log,
        watch,
        events,
        ..
    } = kept;
    let traps = lines_of(alloc, &mut before, &events)?;
    Ok(Made {
        stop,
        log,
        traps,
        watch,
    })
}

/// The lines of the traps of a machine's log, made again from the log's base, where they are counted.
///
/// # Errors
/// Memory was refused.
pub(crate) fn traps_of_log(
    alloc: Global,
    machine: &Machine,
    traps: bool,
) -> Result<String, AllocError>
    ensures { IfOk result (λ text. string_bytes text
        ≡ told_traps traps machine.now.base (events_of machine.now.log)) }
{
    if !traps {
        return Ok(String::new(alloc));
    }
    let mut base = machine.base().copy(alloc)?;
    let entries = machine.copy_log(alloc)?;
    let events = events_made(alloc, &entries)?;
    lines_of(alloc, &mut base, &events)
}
