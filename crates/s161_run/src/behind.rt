//! A run by an order, behind first events: those of the file of `--after`, or none.

ghost use Rattle.std.specs.Prelude.{◌≡◌, ◌+◌, ◌<◌, ◌≤◌, ◌⊎◌, ℕ, IfErr, IfOk, List, None, length};
ghost use Rattle.m161_drive.specs.Drive.{Drives, IsNoted};
ghost use Rattle.m161_drive.specs.declared.run.Driven.{Driven};
ghost use Rattle.m161_machine.specs.declared.event.Entry.{Entry};
ghost use Rattle.m161_machine.specs.declared.event.Refusal.{Refusal};
ghost use Rattle.m161_order.specs.Order.{order_fault};
ghost use Rattle.s161_base.specs.Faults.{fault_of_first};
ghost use Rattle.s161_run.specs.Behind.{ChoseBehind, GoesBehind, RefusesFirst, TakesBehind, events_left, told};
ghost use Rattle.s161_run.specs.Driven.{rules_of};
ghost use Rattle.s161_run.specs.helpers.Behind.{is_refused_behind};

use crate::driven::stop_of;
use crate::events::{RunStop, make_events};
use crate::policy::make_driven;
use m161::Core;
use m161_drive::{Driven, Notes};
use m161_machine::{Event, Events, Refusal};
use s161_base::fault::{Fault, fault_of_first};
use s161_command::Drive;
use std::alloc::{AllocError, Global};

// The greatest number of events of a schedule.
const MOST_EVENTS: usize = 16_777_216;

/// Makes the first events, and then, where each of them was made and the machine is still on, at most `n`
/// that the options' policy chooses with a new cursor; and notes their entries.
///
/// # Errors
/// Memory was refused for the notes.
pub(crate) fn make_behind<N: Notes>(
    core: &mut Core,
    first: &Events,
    options: Drive<'_>,
    n: u64,
    keys: &[u8],
    notes: &mut N,
) -> Result<RunStop, AllocError>
    requires { order_fault options.order ≡ None }
    ensures { IfOk result (λ stop. (entries : List Entry)
        × GoesBehind (rules_of options.entry keys.now) n core.old.state first.now stop entries
        core.new.state
        × IsNoted N.has notes.old entries notes.new) }
{
    match make_events(core, first, notes)? {
        RunStop::End => go_on(core, first.len(), options, n, keys, notes),
        stop => Ok(stop),
    }
}

// Makes at most n events that the options' policy chooses with a new cursor, and notes their entries. So
// many were made before them.
fn go_on<N: Notes>(
    core: &mut Core,
    before: usize,
    options: Drive<'_>,
    n: u64,
    keys: &[u8],
    notes: &mut N,
) -> Result<RunStop, AllocError>
    requires order { order_fault options.order ≡ None }
    requires made { before ≤ core.now.state.made }
    ensures { IfOk result (λ stop. (driven : Driven) × (more : List Entry)
        × Drives (rules_of options.entry keys.now) n core.old.state driven more core.new.state
        × (stop ≡ told (before + driven.made) core.new.state.conflict driven.stop)
        × IsNoted N.has notes.old more notes.new) }
{
    let driven = make_driven(core, options, n, keys, notes)?;
    // So that the proof knows that a u64 counts all events.
    let _all = core.made();
    let behind = Driven {
        made: before as u64 + driven.made,
        stop: driven.stop,
    };
    Ok(stop_of(behind, core))
}

// How many events a policy may choose behind these, where a list of events is wanted.
fn events_left(options: Drive<'_>, first: &Events) -> u64
    ensures { result ≡ events_left options.entry.events (length first.now) }
{
    let room = MOST_EVENTS.saturating_sub(first.len()) as u64;
    options.events.min(room)
}

/// The events that are made: the first ones, and then those that the options' policy chooses, so that there
/// are at most 16,777,216.
///
/// # Errors
/// One of the first events was refused; or memory was refused, also where an event of the policy was
/// refused for want of it.
pub fn events_behind<'a>(
    alloc: Global,
    core: &mut Core,
    first: &Events,
    options: Drive<'_>,
    keys: &[u8],
) -> Result<Vec<Event>, Fault<'a>>
    requires { order_fault options.order ≡ None }
    ensures ok { IfOk result (λ events. ChoseBehind (rules_of options.entry keys.now)
        options.entry.events core.old.state first.now events.items) }
    ensures err { IfErr result (λ fault. (fault ≡ Fault.Memory)
        ⊎ ((k : ℕ) × (why : Refusal) × RefusesFirst core.old.state first.now k why
        × (fault ≡ fault_of_first k why))) }
{
    let mut events = Vec::new(alloc);
    let n = events_left(options, first);
    match make_behind(core, first, options, n, keys, &mut events)? {
        RunStop::Refused(k, why) => Err(fault_of_refusal(first.len(), k, why)),
        _ => Ok(events),
    }
}

// Why no events are listed: event k was refused, and so many come first.
fn fault_of_refusal<'a>(before: usize, k: usize, why: Refusal) -> Fault<'a>
    ensures { ((k < before) × (result ≡ fault_of_first k why))
        ⊎ ((before ≤ k) × (result ≡ Fault.Memory)) }
{
    if k < before {
        fault_of_first(k as u64, why)
    } else {
        Fault::Memory
    }
}

/// The events of a session: all of the first ones, whether they are refused or not, and, where each was
/// made and the machine is still on, those that the options' policy chooses, so that there are at most
/// 16,777,216.
///
/// # Errors
/// Memory was refused, also where an event of the policy was refused for want of it.
pub fn session_behind<'a>(
    alloc: Global,
    core: &mut Core,
    first: &Events,
    options: Drive<'_>,
    keys: &[u8],
) -> Result<Vec<Event>, Fault<'a>>
    requires { order_fault options.order ≡ None }
    ensures ok { IfOk result (λ events. TakesBehind (rules_of options.entry keys.now)
        options.entry.events core.old.state first.now events.items) }
    ensures err { IfErr result (λ fault. fault ≡ Fault.Memory) }
{
    let mut events = Vec::new(alloc);
    let n = events_left(options, first);
    let stop = make_behind(core, first, options, n, keys, &mut events)?;
    if is_refused_behind(stop, first.len()) {
        return Err(Fault::Memory);
    }
    if events.len() < first.len() {
        return Ok(first.to_vec(alloc)?);
    }
    Ok(events)
}

// Whether an event was refused behind so many.
fn is_refused_behind(stop: RunStop, before: usize) -> bool
    ensures { result ≡ is_refused_behind stop before }
{
    match stop {
        RunStop::Refused(k, _) => before <= k,
        _ => false,
    }
}
