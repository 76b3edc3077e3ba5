//! The audit of a run.

ghost use Rattle.std.specs.Prelude.{◌≡◌, ◌<◌, ℕ, List, true, false, [], ◌∷◌, None, Some, IfOk, IfSome, MatchOption, length, replicate, take};
ghost use Rattle.m161_machine.specs.declared.event.Event.TheVariants as events;
ghost use Rattle.m161_machine.specs.History.{boot_fault};
ghost use Rattle.m161_machine.specs.State.{refusal};
ghost use Rattle.m161_machine.specs.StoreHistory.{StoreState, stores_after};
ghost use Rattle.m161_machine.specs.Uses.{MakesStep};
ghost use Rattle.m161_audit.specs.declared.shootdown.Shootdown.{Shootdown};
ghost use Rattle.m161_audit.specs.declared.watch.Watch.{Watch};
ghost use Rattle.m161_audit.specs.Audit.{Audits, AuditsState};
ghost use Rattle.m161_audit.specs.Stale.{IsBelow};
ghost use Rattle.m161_audit.specs.Watch.{AreGood, IsBad};
ghost use Rattle.m161_audit.specs.Tracking.{tracked};
ghost use Rattle.m161_audit.specs.Tracking.{IsAt};
ghost use Rattle.m161_audit.specs.helpers.Run.{AuditsEvent, AuditsEvents, AuditsInputs, AuditsStep, AuditsSteps, Begins, FindsIn, FindsOn, IsInput, Passes};

use crate::finding::{AuditError, Finding};
use crate::shootdown::Shootdowns;
use crate::stale::{stale_use, uses_stale};
use crate::watch::{Watch, is_bad};
use m161_bus::Console;
use m161_cpu::Via;
use m161_machine::{BootError, Conf, Core, Event, Events, Machine, Refusal};
use m161_progress::{Listener, Nobody};
use m161_tlb::Tlb;
use std::alloc::Global;

/// The first bad watch.
pub(crate) fn first_bad(ram: u32, watches: &[Watch]) -> Option<usize>
    ensures { MatchOption result ((k : ℕ) → AreGood ram watches.now k)
        (λ k. IsBad ram watches.now k × AreGood ram watches.now k) }
{
    for (k, watch) in watches.iter().enumerate() {
        if is_bad(ram, watch) {
            return Some(k);
        }
    }
    None
}

// Makes a Step that no refusal holds of, and notes its store.
#[inline(always)]
fn make_step<T: Tlb, D: Console>(
    core: &mut Core<T, D>,
    p: u32,
    stored: Option<u32>,
    shootdowns: &mut Shootdowns,
)
    requires { refusal core.old.state (events.Step p) ≡ None }
    ensures made { MakesStep core.old.state p core.new.state }
    ensures noted { (watches : List Watch) (stores : List ℕ)
        → shootdowns.old ≡ tracked watches stores
        → shootdowns.new ≡ tracked watches (stores_after stored stores) }
{
    core.make(p);
    shootdowns.note_stored(stored);
}

// Audits a Step that no refusal holds of, and makes it if it is no stale use.
fn audit_accepted_step<T: Tlb, D: Console>(
    core: &mut Core<T, D>,
    p: u32,
    shootdowns: &mut Shootdowns,
) -> Option<Via>
    requires place { p < length core.old.state.processors }
    requires refusal { refusal core.old.state (events.Step p) ≡ None }
    ensures { (watches : List Watch) (s : StoreState)
        → IsAt watches s core.old.state shootdowns.old
        → AuditsStep watches s p result core.new.state shootdowns.new }
{
    let uses = core.uses(p);
    if let Some(via) = stale_use(core, p, &uses, shootdowns) {
        return Some(via);
    }
    make_step(core, p, uses.stored, shootdowns);
    None
}

// Audits a Step, and makes it if it is no stale use. A refused one changes nothing.
#[cold]
#[inline(never)]
fn audit_step<T: Tlb, D: Console>(
    core: &mut Core<T, D>,
    p: u32,
    shootdowns: &mut Shootdowns,
) -> Option<Via>
    ensures { (watches : List Watch) (s : StoreState)
        → IsAt watches s core.old.state shootdowns.old
        → AuditsStep watches s p result core.new.state shootdowns.new }
{
    if let Some(_) = core.refusal(p) {
        return None;
    }
    audit_accepted_step(core, p, shootdowns)
}

// Makes a Step, if no refusal holds of it and it is no stale use, and says so; else changes nothing.
// For LLVM: all that most Steps need, and no `Via` on the way.
#[inline(always)]
fn make_clean_step<T: Tlb, D: Console>(
    core: &mut Core<T, D>,
    p: u32,
    shootdowns: &mut Shootdowns,
) -> bool
    ensures made { result ≡ true → (watches : List Watch) (s : StoreState)
        → IsAt watches s core.old.state shootdowns.old
        → AuditsStep watches s p None core.new.state shootdowns.new }
    ensures kept { result ≡ false
        → (core.new.state ≡ core.old.state) × (shootdowns.new ≡ shootdowns.old) }
{
    if let Some(_) = core.refusal(p) {
        return false;
    }
    let judged = core.uses(p);
    if uses_stale(core, p, &judged, shootdowns) {
        return false;
    }
    make_step(core, p, judged.stored, shootdowns);
    true
}

// Audits Steps of a processor, and makes them up to the first stale use. Returns how many are
// before it, and the use.
#[inline(never)]
fn audit_steps<T: Tlb, D: Console>(
    core: &mut Core<T, D>,
    p: u32,
    times: u32,
    shootdowns: &mut Shootdowns,
) -> Option<(u32, Via)>
    ensures run { (watches : List Watch) (s : StoreState)
        → IsAt watches s core.old.state shootdowns.old
        → AuditsSteps watches s p (replicate times (events.Step p)) result core.new.state shootdowns.new }
    ensures within { IfSome result (λ found. found.0 < times) }
{
    for made in 0..times {
        if make_clean_step(core, p, shootdowns) {
            continue;
        }
        if let Some(via) = audit_step(core, p, shootdowns) {
            return Some((made, via));
        }
    }
    None
}

// Makes an event that isn't a Step. A refused one changes nothing, unless memory was refused.
fn make_input<T: Tlb, D: Console>(core: &mut Core<T, D>, event: Event) -> Result<(), AuditError>
    requires { IsInput event }
    ensures { (watches : List Watch) (s : StoreState) (items : List Shootdown)
        → IsAt watches s core.old.state items
        → AuditsInputs watches s (event ∷ []) result core.new.state items }
{
    match core.event(event) {
        Ok(_) => Ok(()),
        Err(refusal) => {
            if refusal == Refusal::NoMemory {
                Err(AuditError::Boot(BootError::NoMemory))
            } else {
                Ok(())
            }
        }
    }
}

// Makes it so many times.
fn make_inputs<T: Tlb, D: Console>(
    core: &mut Core<T, D>,
    event: Event,
    times: u32,
) -> Result<(), AuditError>
    requires { IsInput event }
    ensures { (watches : List Watch) (s : StoreState) (items : List Shootdown)
        → IsAt watches s core.old.state items
        → AuditsInputs watches s (replicate times event) result core.new.state items }
{
    for made in 0..times {
        make_input(core, event)?;
    }
    Ok(())
}

// Audits an event that comes so many times. Returns how many are before the first stale use, its
// processor, and the use.
fn audit_run<T: Tlb, D: Console>(
    core: &mut Core<T, D>,
    event: Event,
    times: u32,
    shootdowns: &mut Shootdowns,
) -> Result<Option<(u32, u32, Via)>, AuditError>
    ensures run { (watches : List Watch) (s : StoreState)
        → IsAt watches s core.old.state shootdowns.old
        → AuditsEvents watches s (replicate times event) result core.new.state shootdowns.new }
    ensures within { IfOk result (λ found. IfSome found (λ place. place.0 < times)) }
{
    match event {
        Event::Step(p) => match audit_steps(core, p, times, shootdowns) {
            Some((made, via)) => Ok(Some((made, p, via))),
            None => Ok(None),
        },
        Event::Key(_) | Event::Done => {
            make_inputs(core, event, times)?;
            Ok(None)
        }
    }
}

// Audits events from a state on.
fn find<T: Tlb, D: Console, L: Listener>(
    core: &mut Core<T, D>,
    events: &Events,
    shootdowns: &mut Shootdowns,
    listener: &L,
) -> Result<Finding, AuditError>
    ensures { (watches : List Watch) (s : StoreState)
        → IsAt watches s core.old.state shootdowns.old
        → FindsIn watches s events.now result }
{
    let mut done = 0;
    let mut left = events.runs();
    while let Some((event, times)) = left.next() {
        if let Some((before, p, via)) = audit_run(core, event, times, shootdowns)? {
            return Ok(Finding::Stale {
                place: done + before as usize,
                processor: p,
                address: via.address,
                row: via.row.number(),
            });
        }
        done += times as usize;
        listener.reached(done as u64);
    }
    Ok(Finding::Clean)
}

// Audits an event, and makes it if it is no stale use. Returns the use and its processor.
#[inline(always)]
fn audit_event<T: Tlb, D: Console>(
    core: &mut Core<T, D>,
    event: Event,
    shootdowns: &mut Shootdowns,
) -> Result<Option<(u32, Via)>, AuditError>
    ensures { (watches : List Watch) (s : StoreState)
        → IsAt watches s core.old.state shootdowns.old
        → AuditsEvent watches s event result core.new.state shootdowns.new }
{
    match event {
        Event::Step(p) => {
            if make_clean_step(core, p, shootdowns) {
                return Ok(None);
            }
            match audit_step(core, p, shootdowns) {
                Some(via) => Ok(Some((p, via))),
                None => Ok(None),
            }
        }
        Event::Key(_) | Event::Done => {
            make_input(core, event)?;
            Ok(None)
        }
    }
}

/// Audits the events of a list from a place on; those before it are made. `find` does the same with runs
/// of alike events, as a schedule has them; a search has its events one by one, and runs of them would
/// take memory.
pub(crate) fn find_from<T: Tlb, D: Console>(
    core: &mut Core<T, D>,
    events: &[Event],
    from: usize,
    shootdowns: &mut Shootdowns,
) -> Result<Finding, AuditError>
    ensures found { (watches : List Watch) (s : StoreState)
        → Passes watches s (take from events.now) core.old.state shootdowns.old
        → FindsOn watches s events.now result core.new.state shootdowns.new }
    ensures within { IfOk result (IsBelow (length events.now)) }
{
    for place in from..events.len() {
        if let Some((processor, via)) = audit_event(core, events[place], shootdowns)? {
            return Ok(Finding::Stale {
                place,
                processor,
                address: via.address,
                row: via.row.number(),
            });
        }
    }
    Ok(Finding::Clean)
}

// Audits a list of events from a state on.
fn find_in<T: Tlb, D: Console>(
    core: &mut Core<T, D>,
    events: &[Event],
    shootdowns: &mut Shootdowns,
) -> Result<Finding, AuditError>
    ensures { (watches : List Watch) (s : StoreState)
        → IsAt watches s core.old.state shootdowns.old
        → FindsIn watches s events.now result }
{
    find_from(core, events, 0, shootdowns)
}

// The state of a machine that is booted from a file, and the shootdowns of watches that aren't bad.
#[inline(never)]
fn begin<T: Tlb + Drop, D: Console + Drop>(
    alloc: Global,
    file: &[u8],
    conf: Conf,
    watches: &[Watch],
) -> Result<(Core<T, D>, Shootdowns), AuditError>
    ensures { Begins file.now conf (boot_fault file.now conf) watches.now result }
{
    let machine: Machine<T, D> = Machine::boot(alloc, file, conf)?;
    if let Some(k) = first_bad(conf.ram, watches) {
        return Err(AuditError::BadWatch(k));
    }
    let shootdowns = Shootdowns::new(alloc, watches)?;
    Ok((machine.into_core(), shootdowns))
}

/// Makes the events of a schedule on a machine that is booted from a file, over any TLB and any
/// console, and finds the first stale use of a watched page. A refused event counts as a place and
/// changes nothing.
///
/// # Errors
/// The machine can't be booted; or the first bad watch; or memory was refused, also at an event
/// `Done`.
pub fn audit_events<T: Tlb + Drop, D: Console + Drop>(
    alloc: Global,
    file: &[u8],
    conf: Conf,
    events: &Events,
    watches: &[Watch],
) -> Result<Finding, AuditError>
    ensures { Audits file.now conf (boot_fault file.now conf) events.now watches.now result }
{
    audit_events_with::<T, D, Nobody>(alloc, file, conf, events, watches, &Nobody)
}

/// The same, while someone listens how many events were made.
///
/// # Errors
/// Those of `audit_events`.
pub fn audit_events_with<T: Tlb + Drop, D: Console + Drop, L: Listener>(
    alloc: Global,
    file: &[u8],
    conf: Conf,
    events: &Events,
    watches: &[Watch],
    listener: &L,
) -> Result<Finding, AuditError>
    ensures { Audits file.now conf (boot_fault file.now conf) events.now watches.now result }
{
    let (mut core, mut shootdowns) = begin::<T, D>(alloc, file, conf, watches)?;
    find(&mut core, events, &mut shootdowns, listener)
}

/// The same, for a list of events.
///
/// # Errors
/// Those of `audit_events`.
pub fn audit<T: Tlb + Drop, D: Console + Drop>(
    alloc: Global,
    file: &[u8],
    conf: Conf,
    events: &[Event],
    watches: &[Watch],
) -> Result<Finding, AuditError>
    ensures { Audits file.now conf (boot_fault file.now conf) events.now watches.now result }
{
    let (mut core, mut shootdowns) = begin::<T, D>(alloc, file, conf, watches)?;
    find_in(&mut core, events, &mut shootdowns)
}

/// The same, from a state on. What was stored before it doesn't count.
///
/// # Errors
/// The first bad watch; or memory was refused, also at an event `Done`.
pub fn audit_core<T: Tlb, D: Console>(
    alloc: Global,
    core: &mut Core<T, D>,
    events: &[Event],
    watches: &[Watch],
) -> Result<Finding, AuditError>
    ensures { AuditsState core.old.state events.now watches.now result }
{
    if let Some(k) = first_bad(core.conf().ram, watches) {
        return Err(AuditError::BadWatch(k));
    }
    let mut shootdowns = Shootdowns::new(alloc, watches)?;
    find_in(core, events, &mut shootdowns)
}
