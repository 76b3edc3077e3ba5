//! What is noted of the events of a run.

use super::machines::{SENDS, booted, check_end, check_same};
use super::same;
use circular_buffer::HeapCircularBuffer;
use m161::Core;
use m161_drive::{
    Cursor, Event, Notes, Order, OrderError, PackedEntry, Policy, Stop, Unnoted, drive,
};
use m161_machine::Entry;
use std::alloc::{AllocError, AllocGlobal};
use std::process::Abort;
use std::test::Fail;

/// A policy that makes up to 64 Steps at once, types three keys and sends a byte.
fn policy() -> Result<Policy<'static>, OrderError> {
    Policy::new(Order::Turns(1000), 5, Some(20), b"abc")
}

/// How many events a run has. The last turn is cut.
const EVENTS: u32 = 200;

/// Makes the event that the policy chooses.
fn make_chosen(core: &mut Core, cursor: &mut Cursor, policy: &Policy) -> Option<Entry> {
    let event = cursor.choose(policy, core)?;
    match core.event(event) {
        Ok(outcome) => {
            cursor.took(event, core);
            Some(Entry { event, outcome })
        }
        Err(_) => None,
    }
}

/// Makes this many events that a policy chooses, one by one. Returns their entries.
fn make_one_by_one(
    rt: &impl AllocGlobal,
    core: &mut Core,
    policy: &Policy,
    n: u32,
) -> Result<Vec<Entry>, AllocError> {
    let mut cursor = Cursor::new(policy, core);
    let mut entries = Vec::new(rt.alloc());
    for _event in 0..n {
        if let Some(entry) = make_chosen(core, &mut cursor, policy) {
            entries.push(entry)?;
        }
    }
    Ok(entries)
}

/// Drives a kernel with these notes, which have to take all; it has to end in this state.
fn check_driven<N: Notes>(
    rt: &(impl Abort + AllocGlobal),
    notes: &mut N,
    again: &Core,
) -> Result<(), Fail> {
    let mut core = booted(rt, &SENDS)?;
    let driven = drive(&mut core, &policy()?, u64::from(EVENTS), notes)?;
    check_end(rt, driven, u64::from(EVENTS), Stop::End);
    check_same(rt, &core, again);
    Ok(())
}

/// The events are noted one by one, behind those that were there.
#[test]
fn noted_events(rt: HostRuntime) -> Result<(), Fail> {
    let mut again = booted(&rt, &SENDS)?;
    let entries = make_one_by_one(&rt, &mut again, &policy()?, EVENTS)?;
    let mut events = Vec::new(rt.alloc());
    events.push(Event::Key(7))?;
    check_driven(&rt, &mut events, &again)?;
    same(&rt, events.len(), 201);
    same(&rt, events.first().copied(), Some(Event::Key(7)));
    for (event, entry) in events.iter().skip(1).zip(entries.iter()) {
        same(&rt, *event, entry.event);
    }
    Ok(())
}

/// Notes the last entries, for which there is this much room, behind one that was there: of those so
/// many have to be left.
fn check_last(
    rt: &(impl Abort + AllocGlobal),
    room: usize,
    entries: &[Entry],
    again: &Core,
) -> Result<(), Fail> {
    let mut last = HeapCircularBuffer::with_capacity(rt.alloc(), room)?;
    last.push_back(PackedEntry::blank());
    check_driven(rt, &mut last, again)?;
    same(rt, last.len(), room.min(201));
    for (found, entry) in last.iter().rev().zip(entries.iter().rev()) {
        same(rt, found.entry(), *entry);
    }
    Ok(())
}

/// The last entries are noted, as many as there is room for.
#[test]
fn noted_entries(rt: HostRuntime) -> Result<(), Fail> {
    let mut again = booted(&rt, &SENDS)?;
    let entries = make_one_by_one(&rt, &mut again, &policy()?, EVENTS)?;
    check_last(&rt, 0, &entries, &again)?;
    check_last(&rt, 30, &entries, &again)?;
    check_last(&rt, 200, &entries, &again)?;
    check_last(&rt, 1000, &entries, &again)
}

/// Nothing is noted.
#[test]
fn unnoted(rt: HostRuntime) -> Result<(), Fail> {
    let mut again = booted(&rt, &SENDS)?;
    let entries = make_one_by_one(&rt, &mut again, &policy()?, EVENTS)?;
    same(&rt, entries.len(), 200);
    check_driven(&rt, &mut Unnoted, &again)
}

/// Takes entries so many times, and is refused memory then.
#[derive(Drop)]
struct Few {
    left: u32,
}

impl Notes for Few {
    ghost has = { λ room few so_far. Unit {0} };

    fn add(&mut self, _entries: &[PackedEntry]) -> Result<(), AllocError> {
        if self.left == 0 {
            return Err(AllocError);
        }
        self.left -= 1;
        Ok(())
    }
}

/// Where memory is refused for the notes, the events that were made are a beginning of the run.
#[test]
fn notes_without_memory(rt: HostRuntime) -> Result<(), Fail> {
    for left in 0..8 {
        let mut core = booted(&rt, &SENDS)?;
        let driven = drive(&mut core, &policy()?, u64::from(EVENTS), &mut Few { left });
        same(&rt, driven, Err(AllocError));
        let made = u32::try_from(core.made()).unwrap_or(u32::MAX);
        same(&rt, left < made && made < EVENTS, true);
        let mut again = booted(&rt, &SENDS)?;
        let _entries = make_one_by_one(&rt, &mut again, &policy()?, made)?;
        check_same(&rt, &core, &again);
    }
    Ok(())
}
