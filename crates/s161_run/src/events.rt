//! Making the events of a schedule on a machine.

ghost use Rattle.std.specs.Prelude.{◌≡◌, ◌<◌, ◌≤◌, IfOk, List, MatchOption, Some, length, take};
ghost use Rattle.m161_drive.specs.Drive.{IsNoted};
ghost use Rattle.m161_machine.specs.declared.event.Entry.{Entry};
ghost use Rattle.m161_machine.specs.History.{Refuses};
ghost use Rattle.m161_machine.specs.State.{next};
ghost use Rattle.s161_run.specs.Runs.{MakesEvents, conflict_words, stop_line, stop_off};
ghost use Rattle.s161_run.specs.helpers.Events.{MakesAlike, MakesOf};

use m161::Core;
use m161_drive::Notes;
use m161_machine::{Conflict, Event, Events, PackedEntry, Refusal};
use std::alloc::AllocError;
use std::fmt;

/// Why no more events were made.
#[derive(Clone, Copy, Debug, PartialEq, Eq, Drop)]
pub enum RunStop {
    /// The last one switched the machine off, and wasn't a conflict.
    Off,
    /// The last one was this conflict, which switched the strict machine off.
    Conflict(Conflict),
    /// There were no more.
    End,
    /// The policy that chooses them chose none.
    Stuck,
    /// This event, counted from 0, was refused.
    Refused(usize, Refusal),
}

/// A conflict, as text.
#[derive(Drop)]
pub struct ShownConflict(pub Conflict);

impl fmt::Display for ShownConflict {
    ghost output = { λ conflict. Some (conflict_words conflict.0) };

    fn fmt<W: fmt::Write>(&self, f: &mut fmt::Formatter<W>) -> fmt::Result {
        let (processor, row, other) = (self.0.processor, self.0.row, self.0.other);
        write!(f, "conflict {processor} {row} {other}")
    }
}

impl fmt::Display for RunStop {
    ghost output = { λ stop. Some (stop_line stop) };

    fn fmt<W: fmt::Write>(&self, f: &mut fmt::Formatter<W>) -> fmt::Result {
        match self {
            RunStop::Off => write!(f, "stop: off"),
            RunStop::Conflict(conflict) => {
                let shown = ShownConflict(*conflict);
                write!(f, "stop: {shown}")
            }
            RunStop::End => write!(f, "stop: end"),
            RunStop::Stuck => write!(f, "stop: stuck"),
            RunStop::Refused(k, refusal) => {
                let (k, number, name) = (*k, refusal.number(), refusal.name());
                write!(f, "stop: refused {k} {number} {name}")
            }
        }
    }
}

/// Why no more events were made of a machine that is off, by its conflict.
pub fn stop_off(conflict: Option<Conflict>) -> RunStop
    ensures { result ≡ stop_off conflict }
{
    match conflict {
        Some(conflict) => RunStop::Conflict(conflict),
        None => RunStop::Off,
    }
}

/// Makes events in order, until one switches the machine off or is refused, and notes their entries.
///
/// # Errors
/// Memory was refused for the notes.
pub fn make_events<N: Notes>(
    core: &mut Core,
    events: &Events,
    notes: &mut N,
) -> Result<RunStop, AllocError>
    ensures { IfOk result (λ stop. (entries : List Entry)
        × MakesEvents core.old.state events.now stop entries core.new.state
        × IsNoted N.has notes.old entries notes.new) }
{
    let was_off = core.is_off();
    let mut entries = [PackedEntry::blank(); AT_ONCE];
    let mut made = 0;
    let mut left = events.runs();
    while let Some((event, times)) = left.next() {
        let (more, refusal) = make_alike(core, event, times, &mut entries, notes)?;
        made += more as usize;
        if core.is_off() != was_off {
            return Ok(stop_off(core.conflict()));
        }
        if let Some(refusal) = refusal {
            return Ok(RunStop::Refused(made, refusal));
        }
    }
    Ok(RunStop::End)
}

// So many events are made at once, at most: their entries are in the processor's nearest cache.
const AT_ONCE: usize = 256;

// Makes an event this many times, in these places, again and again. Returns how many times it was made,
// and why the next time it wasn't.
fn make_alike<N: Notes>(
    core: &mut Core,
    event: Event,
    times: u32,
    entries: &mut [PackedEntry],
    notes: &mut N,
) -> Result<(u32, Option<Refusal>), AllocError>
    requires { 1 ≤ length entries.old }
    ensures length { length entries.new ≡ length entries.old }
    ensures alike { IfOk result (MakesAlike N.has core.old.state notes.old event times
        core.new.state notes.new) }
{
    let mut made = 0;
    while made < times {
        let most = ((times - made) as usize).min(entries.len());
        let (more, refusal) = make_some(core, event, &mut entries[..most]);
        notes.add(&entries[..more])?;
        made += more as u32;
        if let Some(refusal) = refusal {
            return Ok((made, Some(refusal)));
        }
    }
    Ok((times, None))
}

// Makes an event once for each place, or until it is refused, and writes the entries there. Returns
// how many were made, and why the next one wasn't.
fn make_some(core: &mut Core, event: Event, entries: &mut [PackedEntry]) -> (usize, Option<Refusal>)
    ensures made { MakesOf event core.old.state (take result.0 entries.new) core.new.state }
    ensures why { MatchOption result.1 (result.0 ≡ length entries.old)
        (λ refusal. (result.0 < length entries.old)
        × Refuses (next core.new.state event) event refusal) }
    ensures length { length entries.new ≡ length entries.old }
{
    match event {
        Event::Step(p) => core.steps(p, entries),
        event => make_inputs(core, event, entries),
    }
}

// The same, one event at a time.
fn make_inputs(
    core: &mut Core,
    event: Event,
    entries: &mut [PackedEntry],
) -> (usize, Option<Refusal>)
    ensures made { MakesOf event core.old.state (take result.0 entries.new) core.new.state }
    ensures why { MatchOption result.1 (result.0 ≡ length entries.old)
        (λ refusal. (result.0 < length entries.old)
        × Refuses (next core.new.state event) event refusal) }
    ensures length { length entries.new ≡ length entries.old }
{
    for k in 0..entries.len() {
        match core.packed_event(event) {
            Ok(entry) => entries[k] = entry,
            Err(refusal) => return (k, Some(refusal)),
        }
    }
    (entries.len(), None)
}
