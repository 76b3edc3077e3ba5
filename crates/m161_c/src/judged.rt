//! What is wrong with the events that a machine has made.

ghost use Rattle.std.specs.Prelude.{◌≡◌, ◌==◌, ◌++◌, ◌∷◌, [], IfOk, OnOk, Some, map, true};
ghost use Rattle.m161_audit.specs.Audit.{AuditsState};
ghost use Rattle.m161_judge.specs.Judge.{bytes_of};
ghost use Rattle.m161_machine.specs.History.{boot_state, events_of};
ghost use Rattle.m161_c.specs.Explored.{criteria_of, watch_of};
ghost use Rattle.m161_c.specs.Judged.{AuditsAs, JudgesAs, TellsOne, TellsResult, finding_numbers, judged_numbers, number_of_audit};

use crate::answer::{Judgement, WatchNumbers};
use crate::explored::watches_of;
use crate::verdict::{RIGHT, run_verdict};
use crate::{BAD_WATCH, DROPPED, NO_MEMORY};
use m161::{BootError, Console, Entry, Event, Machine, Tlb};
use m161_audit::{AuditError, Finding, audit_core};
use m161_judge::{Goal, Judged, Verdict};
use std::alloc::{AllocError, Global};

// Adds an event behind the others.
fn push_event(events: &mut Vec<Event>, event: Event) -> Result<(), AllocError>
    ensures { OnOk result (events.new.items ≡ events.old.items ++ event ∷ []) }
{
    events.push(event)?;
    Ok(())
}

// The events of entries.
fn events_of(alloc: Global, entries: &[Entry]) -> Result<Vec<Event>, AllocError>
    ensures { IfOk result (λ events. events.items ≡ events_of entries.now) }
{
    let mut events = Vec::new(alloc);
    for entry in entries {
        push_event(&mut events, entry.event)?;
    }
    Ok(events)
}

/// The events of a machine's log.
pub(crate) fn events_made(alloc: Global, machine: &Machine) -> Result<Vec<Event>, AllocError>
    ensures { IfOk result (λ events. events.items ≡ events_of machine.now.log) }
{
    let entries = machine.copy_log(alloc)?;
    events_of(alloc, &entries)
}

/// Why events aren't judged, as a number.
pub(crate) fn audit_number(error: AuditError) -> u8
    ensures { result ≡ number_of_audit error }
{
    match error {
        AuditError::Boot(BootError::BadConf) => 1,
        AuditError::Boot(BootError::Load(fault)) => 1 + fault.number(),
        AuditError::Boot(BootError::NoMemory) => NO_MEMORY,
        AuditError::BadWatch(_) => BAD_WATCH,
    }
}

fn finding_numbers(finding: Finding) -> Judgement
    ensures { result ≡ finding_numbers finding }
{
    match finding {
        Finding::Clean => RIGHT,
        Finding::Stale {
            place,
            processor,
            address,
            row,
        } => Judgement {
            verdict: run_verdict(Verdict::Stale {
                place,
                processor,
                address,
                row,
            }),
            events: (place as u64).saturating_add(1),
        },
    }
}

fn judged_numbers(judged: Option<Judged>) -> Judgement
    ensures { result ≡ judged_numbers judged }
{
    match judged {
        Some(judged) => Judgement {
            verdict: run_verdict(judged.verdict),
            events: judged.events as u64,
        },
        None => RIGHT,
    }
}

/// Whether a machine's log has all events since its boot.
pub(crate) fn has_all(machine: &Machine) -> bool
    ensures value { result ≡ (machine.now.base.made == 0) }
    ensures boot { result ≡ true → machine.now.base ≡ boot_state machine.now.start }
{
    machine.replay();
    machine.made() == machine.log_len() as u64
}

// Tells a finding; or says why there is none.
fn tell_finding(found: Result<Finding, AuditError>, judgement: &mut Judgement) -> u8
    ensures { TellsResult finding_numbers found result judgement.old judgement.new }
{
    match found {
        Ok(finding) => {
            *judgement = finding_numbers(finding);
            0
        }
        Err(error) => audit_number(error),
    }
}

// Tells a verdict, if there is one; or says why that isn't known.
fn tell_verdict(judged: Result<Option<Judged>, AuditError>, judgement: &mut Judgement) -> u8
    ensures { TellsResult judged_numbers judged result judgement.old judgement.new }
{
    match judged {
        Ok(judged) => {
            *judgement = judged_numbers(judged);
            0
        }
        Err(error) => audit_number(error),
    }
}

// Audits the events of a machine's log from the boot on, and tells the finding; or answers with the
// number of why not.
fn audit_all(
    alloc: Global,
    machine: &Machine,
    watches: &[WatchNumbers],
    judgement: &mut Judgement,
) -> u8
    ensures { TellsOne (AuditsState (boot_state machine.now.start) (events_of machine.now.log) (map watch_of watches.now))
        finding_numbers result judgement.old judgement.new }
{
    let Ok(events) = events_made(alloc, machine) else {
        return NO_MEMORY;
    };
    let Ok(watches) = watches_of(alloc, watches) else {
        return NO_MEMORY;
    };
    let Ok(boot) = machine.boot_again(alloc) else {
        return NO_MEMORY;
    };
    let mut core = boot.into_core();
    tell_finding(audit_core(alloc, &mut core, &events, &watches), judgement)
}

/// Audits the events of a machine, and tells the finding; or answers with the number of why not.
pub(crate) fn audit(
    alloc: Global,
    machine: &Machine,
    watches: &[WatchNumbers],
    judgement: &mut Judgement,
) -> u8
    ensures { AuditsAs (Some machine.now) (map watch_of watches.now) result judgement.old judgement.new }
{
    if has_all(machine) {
        audit_all(alloc, machine, watches, judgement)
    } else {
        DROPPED
    }
}

/// Judges the events of a machine, as made on one of its size that is booted from a file, and tells the
/// verdict; or answers with the number of why not.
pub(crate) fn judge(
    alloc: Global,
    machine: &Machine,
    file: &[u8],
    keys: &[u8],
    watches: &[WatchNumbers],
    never: &[u32],
    output: Option<&[u8]>,
    judgement: &mut Judgement,
) -> u8
    ensures { JudgesAs (Some machine.now) file.now (criteria_of keys.now watches.now never.now (bytes_of output.entry))
        result judgement.old judgement.new }
{
    if !has_all(machine) {
        return DROPPED;
    }
    let Ok(events) = events_made(alloc, machine) else {
        return NO_MEMORY;
    };
    let Ok(watches) = watches_of(alloc, watches) else {
        return NO_MEMORY;
    };
    let goal = Goal {
        watches: &watches,
        never,
        output,
        keys,
    };
    let judged = m161_judge::judge::<Tlb, Console>(alloc, file, machine.conf(), &events, &goal);
    tell_verdict(judged, judgement)
}
