//! Runs of the sample kernel: moves along them, and where these have to stop.

use super::same;
use m161::{Conf, Console, Core, Event, LinkUnit, Tlb};
use m161_drive::{Order, Policy, drive};
use m161_gdb::{Kind, Motion, Stops};
use m161_moves::{Reason, Run, backwards, forwards, thread_of};
use m161_replay::Replay;
use m161_test_support::files::file_at;
use m161_test_support::kernel::kernel_file;
use m161_test_support::outcomes::{ENTRY, SMALLEST};
use std::alloc::{AllocError, AllocGlobal};
use std::process::Abort;
use std::test::Fail;

/// What is done to a run, and what is found then.
pub(crate) enum Act {
    /// A breakpoint or a watch is set, or taken away.
    Set(Kind, u32, u32),
    Delete(Kind, u32, u32),
    /// The mark is set.
    Mark(usize),
    /// A move, forwards or back, with the motions of the processors; where it stops, why, and the
    /// processor of that.
    On([Option<Motion>; 2], usize, Told, u32),
    Back([Option<Motion>; 2], usize, Told, u32),
}

/// What a reason is, its processor and its address.
pub(crate) type Told = (&'static str, u32, u32);

pub(crate) const C: Option<Motion> = Some(Motion::Continue);

pub(crate) const S: Option<Motion> = Some(Motion::Step);

/// The sample kernel on a machine of two processors, at boot.
#[inline(never)]
pub(crate) fn booted(rt: &impl AllocGlobal) -> Result<Core, Fail> {
    let file = kernel_file(rt.alloc())?;
    let conf = Conf {
        ram: 1_048_576,
        processors: 2,
        log: 1,
        link: LinkUnit::Word,
        strict: false,
    };
    Ok(Core::boot(rt.alloc(), &file, conf)?)
}

/// The events of its run by turns of one Step, to where it switches off.
pub(crate) fn events(rt: &impl AllocGlobal) -> Result<Vec<Event>, Fail> {
    let mut core = booted(rt)?;
    let policy = Policy::new(Order::Turns(1), 100, Some(1000), &[])?;
    let mut events = Vec::new(rt.alloc());
    drive(&mut core, &policy, 100_000, &mut events)?;
    Ok(events)
}

/// The run of a list of events.
#[inline(never)]
fn run_of(
    rt: &impl AllocGlobal,
    core: Core,
    events: Vec<Event>,
) -> Result<Replay<Tlb, Console>, Fail> {
    if core.processors() == 0 {
        return Err(Fail::from(AllocError));
    }
    Ok(Replay::new(rt.alloc(), core, events)?)
}

/// That run, made again.
#[inline(never)]
pub(crate) fn replay(rt: &impl AllocGlobal) -> Result<Replay<Tlb, Console>, Fail> {
    let events = events(rt)?;
    run_of(rt, booted(rt)?, events)
}

/// A Step, a key, and a byte that is sent, of which the last is refused.
#[inline(never)]
pub(crate) fn refused(rt: &impl AllocGlobal) -> Result<Replay<Tlb, Console>, Fail> {
    let mut events = Vec::new(rt.alloc());
    events.push(Event::Step(0))?;
    events.push(Event::Key(0x41))?;
    events.push(Event::Done)?;
    run_of(rt, booted(rt)?, events)
}

/// A run of so many Steps of a processor that spins.
#[inline(never)]
pub(crate) fn spinning(rt: &impl AllocGlobal, steps: u32) -> Result<Replay<Tlb, Console>, Fail> {
    let file = file_at(rt.alloc(), ENTRY, &[0x1000_ffff, 0])?;
    let core = Core::boot(rt.alloc(), &file, SMALLEST)?;
    let mut events = Vec::new(rt.alloc());
    for _step in 0..steps {
        events.push(Event::Step(0))?;
    }
    run_of(rt, core, events)
}

fn told(reason: Reason) -> Told {
    match reason {
        Reason::Interrupt => ("interrupt", 0, 0),
        Reason::Mark => ("mark", 0, 0),
        Reason::Step(p) => ("step", p, 0),
        Reason::End => ("end", 0, 0),
        Reason::Begin => ("begin", 0, 0),
        Reason::Break {
            processor,
            address,
            kind,
        } => match kind {
            Kind::Software => ("swbreak", processor, address),
            Kind::Hardware => ("hwbreak", processor, address),
            Kind::Write | Kind::Read | Kind::Access => ("no breakpoint", processor, address),
        },
        Reason::Touch { processor, watch } => match watch.kind {
            Kind::Write => ("write", processor, watch.address),
            Kind::Read => ("read", processor, watch.address),
            Kind::Access => ("access", processor, watch.address),
            Kind::Software | Kind::Hardware => ("no watch", processor, watch.address),
        },
    }
}

// Fails the test where a move stopped elsewhere.
fn check_stop(
    rt: &impl Abort,
    run: &Replay<Tlb, Console>,
    motions: &[Option<Motion>],
    found: Reason,
    place: usize,
    told_as: Told,
    processor: u32,
) {
    if motions.len() == 2 {
        same(rt, thread_of(run, motions, found), processor);
    }
    same(rt, (run.place(), told(found)), (place, told_as));
}

// Does one of the acts.
fn obey(
    rt: &impl Abort,
    run: &mut Replay<Tlb, Console>,
    stops: &mut Stops,
    act: &Act,
) -> Result<(), Fail> {
    match act {
        Act::Set(kind, address, size) => stops.set(*kind, *address, *size)?,
        Act::Delete(kind, address, size) => stops.delete(*kind, *address, *size),
        Act::Mark(place) => stops.set_mark(Some(*place)),
        Act::On(motions, place, told_as, processor) => {
            let found = forwards(run, stops, motions)?;
            stops.set_mark(None);
            check_stop(rt, run, motions, found, *place, *told_as, *processor);
        }
        Act::Back(motions, place, told_as, processor) => {
            let found = backwards(run, stops, motions)?;
            stops.set_mark(None);
            check_stop(rt, run, motions, found, *place, *told_as, *processor);
        }
    }
    Ok(())
}

/// Goes to a place, or back from behind it.
pub(crate) fn go_to(run: &mut Replay<Tlb, Console>, place: usize) -> Result<(), Fail> {
    if run.place() > place {
        run.go_back(place)?;
    }
    for _event in run.place()..place {
        if run.is_at_end() {
            return Ok(());
        }
        run.advance()?;
    }
    Ok(())
}

/// Does these acts, one after the other, on the run of the sample kernel.
pub(crate) fn check_acts(rt: &(impl Abort + AllocGlobal), acts: &[Act]) -> Result<(), Fail> {
    let mut run = replay(rt)?;
    let mut stops = Stops::none(rt.alloc());
    for act in acts {
        obey(rt, &mut run, &mut stops, act)?;
    }
    Ok(())
}
