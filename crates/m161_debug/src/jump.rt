//! Going back to an earlier event.

ghost use Rattle.std.specs.Prelude.{◌≡◌, ◌≤◌, ◌<◌, ◌+◌, ◌^◌, true, length, take, drop, replicate, slice_get, Some, IfOk, OnOk};
ghost use Rattle.m161_machine.specs.declared.event.Event.TheVariants as events;
ghost use Rattle.m161_machine.specs.History.{Continues, Leads, events_of};
ghost use Rattle.m161_debug.specs.Jumps.{jump_fault};
ghost use Rattle.m161_debug.specs.helpers.Repeat.{Repeats};

use m161_bus::Console;
use m161_machine::{Event, Machine};
use m161_tlb::Tlb;
use std::alloc::{AllocError, Global};
use thiserror::Error;

/// Why a session doesn't go back to an event. Each is returned only if none above it holds.
#[derive(Clone, Copy, Debug, PartialEq, Eq, Error)]
pub enum JumpError {
    /// The session has accepted fewer events.
    #[error("fewer events were accepted")]
    BadArgument,
    /// The log has dropped some of the session's events.
    #[error("the log has dropped some of the events")]
    Dropped,
    /// Memory was refused.
    #[error("out of memory")]
    NoMemory,
}

impl From<AllocError> for JumpError {
    ghost use Rattle.std.specs.Prelude.{◌≡◌};
    ghost use Rattle.m161_debug.specs.declared.jump.JumpError.TheVariants as errors;

    ghost from_gives = { λ _ error. error ≡ errors.NoMemory };

    fn from(_error: AllocError) -> JumpError {
        JumpError::NoMemory
    }
}

/// Why a machine can't go back to the state before event `k`.
pub(crate) fn jump_fault<T: Tlb, D: Console>(machine: &Machine<T, D>, k: u64) -> Option<JumpError>
    ensures { result ≡ jump_fault k machine.now }
{
    if k > machine.made() {
        Some(JumpError::BadArgument)
    } else if (machine.log_len() as u64) < machine.made() {
        Some(JumpError::Dropped)
    } else {
        None
    }
}

/// The events of a machine's log from a place on.
pub(crate) fn events_from<T: Tlb, D: Console>(
    alloc: Global,
    machine: &Machine<T, D>,
    first: usize,
) -> Result<Vec<Event>, AllocError>
    requires { first ≤ length machine.now.log }
    ensures { IfOk result (λ events. events.items ≡ drop first (events_of machine.now.log)) }
{
    let mut events = Vec::with_capacity(alloc, machine.log_len() - first)?;
    for i in first..machine.log_len() {
        events.push_reserved(machine.log_at(i).event);
    }
    Ok(events)
}

/// Makes the first events of a log again, on a machine that is as the log's was before them. Runs
/// of Steps of one processor are made at once.
///
/// # Errors
/// Memory was refused, to an event `Done`.
pub(crate) fn repeat<T: Tlb, D: Console>(
    past: &Machine<T, D>,
    again: &mut Machine<T, D>,
    number: usize,
) -> Result<(), AllocError>
    requires inside { number ≤ length past.now.log }
    requires before { Leads again.old.state past.now.log past.now.state }
    ensures { OnOk result (Continues again.old (take number (events_of past.now.log)) again.new) }
{
    // So that the proof knows that the log is within its room.
    again.replay();
    let mut made = 0;
    while made < number {
        made += repeat_next(past, again, made, number)?;
    }
    Ok(())
}

// Makes the event of a place again, and those behind it, before place `end`, that are Steps of the
// same processor. Returns how many.
fn repeat_next<T: Tlb, D: Console>(
    past: &Machine<T, D>,
    again: &mut Machine<T, D>,
    first: usize,
    end: usize,
) -> Result<usize, AllocError>
    requires inside { (first < end) × (end ≤ length past.now.log) }
    requires before { Leads again.old.state (drop first past.now.log) past.now.state }
    ensures within { IfOk result (λ n. (1 ≤ n) × (first + n ≤ end)) }
    ensures repeats { IfOk result (λ n. Repeats past.now.log past.now.state first n again.old
        again.new) }
{
    match past.log_at(first).event {
        Event::Step(p) => Ok(repeat_steps(past, again, p, first, end)),
        event => {
            repeat_event(past, again, event, first)?;
            Ok(1)
        }
    }
}

// Makes the event of a place again.
fn repeat_event<T: Tlb, D: Console>(
    past: &Machine<T, D>,
    again: &mut Machine<T, D>,
    event: Event,
    first: usize,
) -> Result<(), AllocError>
    requires inside { first < length past.now.log }
    requires event { slice_get (events_of past.now.log) first ≡ Some event }
    requires before { Leads again.old.state (drop first past.now.log) past.now.state }
    ensures { OnOk result (Repeats past.now.log past.now.state first 1 again.old again.new) }
{
    match again.event(event) {
        Ok(_) => Ok(()),
        Err(_) => Err(AllocError),
    }
}

// The same, where that event is a Step of processor `p`.
fn repeat_steps<T: Tlb, D: Console>(
    past: &Machine<T, D>,
    again: &mut Machine<T, D>,
    p: u32,
    first: usize,
    end: usize,
) -> usize
    requires inside { (first < end) × (end ≤ length past.now.log) }
    requires step { slice_get (events_of past.now.log) first ≡ Some (events.Step p) }
    requires before { Leads again.old.state (drop first past.now.log) past.now.state }
    ensures within { (1 ≤ result) × (first + result ≤ end) }
    ensures repeats { Repeats past.now.log past.now.state first result again.old again.new }
{
    let number = steps_from(past, p, first, end);
    let _all = again.steps(p, number as u32);
    number
}

// How many entries from a place on, and before place `end`, are of Steps of processor `p`.
fn steps_from<T: Tlb, D: Console>(past: &Machine<T, D>, p: u32, first: usize, end: usize) -> usize
    requires inside { (first < end) × (end ≤ length past.now.log) }
    requires step { slice_get (events_of past.now.log) first ≡ Some (events.Step p) }
    ensures within { (1 ≤ result) × (first + result ≤ end) }
    ensures few { result < 2 ^ 32 }
    ensures steps { take result (drop first (events_of past.now.log))
        ≡ replicate result (events.Step p) }
{
    // So that the proof knows how long a log is at most.
    past.replay();
    let mut last = first + 1;
    while last < end && is_step_of(past, last, p) {
        last += 1;
    }
    last - first
}

// Whether an entry is of a Step of processor `p`.
fn is_step_of<T: Tlb, D: Console>(past: &Machine<T, D>, i: usize, p: u32) -> bool
    requires { i < length past.now.log }
    ensures { result ≡ true → slice_get (events_of past.now.log) i ≡ Some (events.Step p) }
{
    past.log_at(i).event == Event::Step(p)
}
