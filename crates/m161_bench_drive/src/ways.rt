//! The same events, chosen by policies and by hand.

use circular_buffer::HeapCircularBuffer;
use m161::{Conf, Console, Core, LinkUnit, Machine, Tlb};
use m161_drive::{Order, PackedEntry, Policy, drive};
use m161_judge::{Booted, Goal, Watch, judge_booted};
use std::alloc::Global;
use std::time::{Clock, Instant};

/// Which way the events are chosen.
#[derive(Clone, Copy)]
pub(crate) enum Way {
    /// By hand: one Step of each processor in turn.
    ByHand,
    /// By hand: all Steps are those of processor 0.
    Alone,
    /// By a policy of this order, on a state; their entries are kept, as a log keeps them.
    Driven(Order),
    /// At random, by one seed after the other, each from the state at boot on; and the runs are
    /// judged, with a watch or without.
    Judged(bool),
}

/// So many events the run of a seed has.
const EVENTS: u32 = 10_000;

/// A page that the program doesn't map.
const WATCH: Watch = Watch {
    id: 5,
    page: 0x400,
    pte: 0x3000,
    done: 0x3004,
};

/// Events, and the nanoseconds that they took.
#[derive(Clone, Copy)]
pub(crate) struct Took {
    pub(crate) events: u64,
    pub(crate) nanoseconds: u128,
}

// Two processors, and a log of so many entries.
fn conf(log: u32) -> Conf {
    Conf {
        ram: 65_536,
        processors: 2,
        log,
        link: LinkUnit::Word,
        strict: false,
    }
}

// Makes the events by hand: seven of processor 0, which starts the other one, and then by turns.
fn by_hand(machine: &mut Machine, events: u32) {
    if machine.processors() < 2 {
        return;
    }
    let _ = machine.steps(0, 7);
    for k in 7..events {
        let _ = machine.steps(k % 2, 1);
    }
}

// Makes all events as Steps of processor 0.
fn alone(machine: &mut Machine, events: u32) {
    let _ = machine.steps(0, events);
}

// Makes and judges the runs of so many seeds, all from one state at boot. Returns how many events
// they have.
fn judge_seeds(alloc: Global, image: &[u8], seeds: u32, watches: &[Watch]) -> Option<u64> {
    let Ok(booted) = Booted::<Tlb, Console>::new(alloc, image, conf(EVENTS)) else {
        return None;
    };
    let goal = Goal {
        watches,
        never: &[],
        output: None,
        keys: &[],
    };
    let mut made = 0u64;
    for seed in 0..seeds {
        let order = Order::Random(u64::from(seed));
        let policy = Policy::new(order, 100, Some(1_000), &[]).ok()?;
        let events = u64::from(EVENTS);
        let run = judge_booted(alloc, &booted, &policy, events, &goal).ok()?;
        made = made.checked_add(run.events.len() as u64)?;
    }
    Some(made)
}

// Makes events by hand, on a machine with room for all: those of processor 0, or of both in turn. Returns
// how many were made.
fn make_by_hand(alloc: Global, image: &[u8], is_alone: bool, events: u32) -> Option<u64> {
    let mut machine = Machine::boot(alloc, image, conf(events)).ok()?;
    if is_alone {
        alone(&mut machine, events);
    } else {
        by_hand(&mut machine, events);
    }
    Some(machine.made())
}

// Makes events that a policy of this order chooses, and keeps the entries of all. Returns how many were
// made.
fn make_driven(alloc: Global, image: &[u8], order: Order, events: u32) -> Option<u64> {
    let mut core = Core::boot(alloc, image, conf(events)).ok()?;
    let mut entries = HeapCircularBuffer::<PackedEntry>::with_capacity(
        alloc,
        events as usize,
    ).ok()?;
    let policy = Policy::new(order, 100, Some(1_000), &[]).ok()?;
    let driven = drive(&mut core, &policy, u64::from(events), &mut entries).ok()?;
    Some(driven.made)
}

// Makes events one way. Returns how many were made.
fn make_events(alloc: Global, image: &[u8], way: Way, events: u32) -> Option<u64> {
    match way {
        Way::ByHand => make_by_hand(alloc, image, false, events),
        Way::Alone => make_by_hand(alloc, image, true, events),
        Way::Driven(order) => make_driven(alloc, image, order, events),
        Way::Judged(false) => judge_seeds(alloc, image, events / EVENTS, &[]),
        Way::Judged(true) => judge_seeds(alloc, image, events / EVENTS, &[WATCH]),
    }
}

/// Boots a file and makes `events` events one way.
pub(crate) fn make(
    rt: &(impl Clock + AllocGlobal),
    image: &[u8],
    way: Way,
    events: u32,
) -> Option<Took> {
    let start = Instant::now(rt).ok()?;
    let events = make_events(rt.alloc(), image, way, events)?;
    let took = start.elapsed(rt).ok()?;
    Some(Took {
        events,
        nanoseconds: took.as_nanos(),
    })
}
