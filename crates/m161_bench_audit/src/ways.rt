//! The same Steps, bare and audited.

use m161::{Conf, Console, Event, Events, LinkUnit, Machine, Tlb};
use m161_audit::{Finding, Watch, audit_events};
use std::alloc::Global;
use std::time::{Clock, Instant};

/// The page of the loop, where it is mapped.
const PAGE: u32 = 0x400;

/// The first word of the watches.
const WORDS: u32 = 0x4000;

/// Steps, and the nanoseconds that they took.
#[derive(Clone, Copy)]
pub(crate) struct Took {
    pub(crate) steps: u64,
    pub(crate) nanoseconds: u128,
}

// A machine of one processor, with room for `steps` Steps.
fn conf(steps: u32) -> Conf {
    Conf {
        ram: 65_536,
        processors: 1,
        log: steps,
        link: LinkUnit::Word,
        strict: false,
    }
}

// Watches of the loop's page and of those after it, the words of each after those of the one before.
fn watches(alloc: Global, number: u8) -> Option<Vec<Watch>> {
    let mut watches = Vec::new(alloc);
    for k in 0..u32::from(number) {
        watches
            .push(Watch {
                id: 0,
                page: PAGE + k,
                pte: WORDS + 8 * k,
                done: WORDS + 8 * k + 4,
            })
            .ok()?;
    }
    Some(watches)
}

// The number of the Steps that a machine has made.
fn steps_made(machine: &Machine) -> Option<u64> {
    if machine.processors() == 0 {
        return None;
    }
    Some(machine.count(0))
}

/// Boots a file and makes `steps` Steps, without an audit.
pub(crate) fn bare(rt: &(impl Clock + AllocGlobal), image: &[u8], steps: u32) -> Option<Took> {
    let start = Instant::now(rt).ok()?;
    let mut machine = Machine::boot(rt.alloc(), image, conf(steps)).ok()?;
    let _ = machine.steps(0, steps);
    let took = start.elapsed(rt).ok()?;
    Some(Took {
        steps: steps_made(&machine)?,
        nanoseconds: took.as_nanos(),
    })
}

/// Boots the file and audits the same Steps, with the first `number` watches; `None` if one is a
/// stale use.
pub(crate) fn audited(
    rt: &(impl Clock + AllocGlobal),
    image: &[u8],
    steps: u32,
    number: u8,
) -> Option<Took> {
    let mut events = Events::new(rt.alloc());
    events.push_times(Event::Step(0), steps).ok()?;
    let watches = watches(rt.alloc(), number)?;
    let watches = watches.as_slice();
    let start = Instant::now(rt).ok()?;
    let found = audit_events::<Tlb, Console>(rt.alloc(), image, conf(steps), &events, watches);
    let took = start.elapsed(rt).ok()?;
    if found != Ok(Finding::Clean) {
        return None;
    }
    Some(Took {
        steps: u64::from(steps),
        nanoseconds: took.as_nanos(),
    })
}
