//! Events in order, kept as runs: a schedule may ask for one event a million times.

ghost use Rattle.std.specs.Prelude.{◌≡◌, ◌+◌, ◌<◌, ◌≤◌, ◌^◌, ◌==◌, true, false, [], ◌∷◌, ◌++◌, length, replicate, vec_capacity, vec_len, IfOk, OnErr, OnOk};
ghost use Rattle.std.specs.Iterator.{at_most};
ghost use Rattle.m161_machine.specs.Events.{unfolded, TakesRun};

use crate::event::Event;
use std::alloc::{AllocError, Global};
use std::marker::Model;

/// The kind of a Step.
const STEP: u32 = 0;

/// The kind of a typed byte.
const KEY: u32 = 1;

/// The kind of a byte that was sent.
const DONE: u32 = 2;

/// The most times that one run has its event.
const MOST_TIMES: u32 = 0x3fff_ffff;

/// The most runs that a `u32` of times takes.
const MOST_RUNS: usize = 5;

/// An event, and how many times it stands there. Contracts see it as the pair of them.
#[derive(Drop)]
struct EventRun {
    // the processor or the byte
    number: u32,
    // the kind, and four for each time
    code: u32,
}

impl Model for EventRun {
    ghost use Rattle.std.specs.Prelude.{◌≡◌, ℕ, ◌/◌, ◌%◌, ◌<◌, ◌≤◌};
    ghost use Rattle.m161_machine.specs.declared.event.Event.{Event};
    ghost use Rattle.m161_machine.specs.helpers.Events.{event_of};

    ghost Value = { Event × ℕ };

    ghost view = { λ run. (event_of (run.code % 4) run.number, run.code / 4) };

    // the number of a typed byte is a byte, and the event stands there
    ghost invariant = { λ run. (run.code % 4 ≡ 1 → run.number < 256) × (4 ≤ run.code) };
}

impl EventRun {
    fn new(event: Event, times: u32) -> EventRun
        requires some { 1 ≤ times }
        requires small { times < 2 ^ 30 }
        ensures { result ≡ (event, times) }
    {
        let (kind, number) = match event {
            Event::Step(p) => (STEP, p),
            Event::Key(byte) => (KEY, u32::from(byte)),
            Event::Done => (DONE, 0),
        };
        EventRun {
            number,
            code: times * 4 + kind,
        }
    }

    fn event(&self) -> Event
        ensures { result ≡ self.now.0 }
    {
        match self.code % 4 {
            STEP => Event::Step(self.number),
            KEY => Event::Key(self.number as u8),
            _ => Event::Done,
        }
    }

    fn times(&self) -> u32
        ensures value { result ≡ self.now.1 }
        ensures some { 1 ≤ result }
        ensures small { result < 2 ^ 30 }
    {
        self.code / 4
    }

    // Adds the times of another run, if it is of the same event and there is room for them. Returns
    // whether they were added.
    fn lengthen(&mut self, more: &EventRun) -> bool
        ensures added { result ≡ true
            → (self.old.0 ≡ more.now.0) × (self.new ≡ (self.old.0, self.old.1 + more.now.1)) }
        ensures not_added { result ≡ false → self.new ≡ self.old }
    {
        if self.number != more.number || self.code % 4 != more.code % 4 {
            return false;
        }
        if self.times() + more.times() > MOST_TIMES {
            return false;
        }
        self.code += more.times() * 4;
        true
    }
}

// Adds these times to the last run, if it is of this event and has room for them. Returns whether
// they were added.
fn lengthen_last(runs: &mut Vec<EventRun>, more: &EventRun) -> bool
    ensures added { result ≡ true
        → unfolded runs.new.items ≡ unfolded runs.old.items ++ replicate more.now.1 more.now.0 }
    ensures not_added { result ≡ false → runs.new.items ≡ runs.old.items }
{
    match runs.last_mut() {
        Some(last) => last.lengthen(more),
        None => false,
    }
}

// Appends an event some times.
fn append_run(runs: &mut Vec<EventRun>, run: EventRun) -> Result<(), AllocError>
    ensures appended { OnOk result
        (unfolded runs.new.items ≡ unfolded runs.old.items ++ replicate run.1 run.0) }
    ensures refused { OnErr result (runs.new.items ≡ runs.old.items) }
{
    if lengthen_last(runs, &run) {
        return Ok(());
    }
    runs.push(run)?;
    Ok(())
}

// Appends an event some times, into the room of the runs.
fn append(runs: &mut Vec<EventRun>, event: Event, times: u32)
    requires room { vec_len runs.old + 5 ≤ vec_capacity runs.old }
    ensures { unfolded runs.new.items ≡ unfolded runs.old.items ++ replicate times event }
{
    let mut done = 0;
    while done < times {
        let more = (times - done).min(MOST_TIMES);
        runs.push_reserved(EventRun::new(event, more));
        done += more;
    }
}

// Appends an event any number of times.
fn append_times(runs: &mut Vec<EventRun>, event: Event, times: u32) -> Result<(), AllocError>
    ensures appended { OnOk result
        (unfolded runs.new.items ≡ unfolded runs.old.items ++ replicate times event) }
    ensures refused { OnErr result (runs.new.items ≡ runs.old.items) }
{
    if 0 < times && times <= MOST_TIMES {
        return append_run(runs, EventRun::new(event, times));
    }
    runs.reserve(MOST_RUNS)?;
    append(runs, event, times);
    Ok(())
}

/// Events in order. Contracts see them as their list. They are kept as runs of equal events, each
/// of which takes eight bytes.
#[derive(Drop)]
pub struct Events {
    runs: Vec<EventRun>,
    number: usize,
}

impl Model for Events {
    ghost use Rattle.std.specs.Prelude.{◌≡◌, List, length};
    ghost use Rattle.m161_machine.specs.declared.event.Event.{Event};
    ghost use Rattle.m161_machine.specs.Events.{unfolded};

    ghost Value = { List Event };

    ghost view = { λ events. unfolded events.runs.items };

    ghost invariant = { λ events. events.number ≡ length (unfolded events.runs.items) };
}

impl Events {
    /// No event.
    pub fn new(alloc: Global) -> Events
        ensures { result ≡ [] }
    {
        Events {
            runs: Vec::new(alloc),
            number: 0,
        }
    }

    /// The events of a slice.
    ///
    /// # Errors
    /// Memory was refused.
    pub fn from_slice(alloc: Global, items: &[Event]) -> Result<Events, AllocError>
        ensures { IfOk result (λ events. events ≡ items.now) }
    {
        let mut events = Events::new(alloc);
        for event in items {
            events.push(*event)?;
        }
        Ok(events)
    }

    /// How many events there are.
    pub fn len(&self) -> usize
        ensures { result ≡ length self.now }
    {
        self.number
    }

    /// Whether there is none.
    pub fn is_empty(&self) -> bool
        ensures { result ≡ (length self.now == 0) }
    {
        self.len() == 0
    }

    /// Appends an event.
    ///
    /// # Errors
    /// Memory was refused. The events stay as they were.
    pub fn push(&mut self, event: Event) -> Result<(), AllocError>
        ensures appended { OnOk result (self.new ≡ self.old ++ event ∷ []) }
        ensures refused { OnErr result (self.new ≡ self.old) }
    {
        self.push_times(event, 1)
    }

    /// Appends an event `n` times.
    ///
    /// # Errors
    /// Memory was refused, or the number of events doesn't fit a `usize`. The events stay as they
    /// were.
    pub fn push_times(&mut self, event: Event, n: u32) -> Result<(), AllocError>
        ensures appended { OnOk result (self.new ≡ self.old ++ replicate n event) }
        ensures refused { OnErr result (self.new ≡ self.old) }
    {
        let Some(number) = self.len().checked_add(n as usize) else {
            return Err(AllocError);
        };
        append_times(&mut self.runs, event, n)?;
        self.number = number;
        Ok(())
    }

    /// The runs of the events, in order.
    pub fn runs(&self) -> Runs<'_>
        ensures all { result ≡ self.now }
        ensures fits { length self.now < 2 ^ 64 }
    {
        let _number = self.len();
        Runs {
            runs: self.runs.as_slice(),
        }
    }

    /// The events one by one.
    ///
    /// # Errors
    /// Memory was refused.
    pub fn to_vec(&self, alloc: Global) -> Result<Vec<Event>, AllocError>
        ensures { IfOk result (λ events. events.items ≡ self.now) }
    {
        let mut events = Vec::with_capacity(alloc, self.len())?;
        let mut runs = self.runs();
        while let Some((event, times)) = runs.next() {
            push_copies(&mut events, event, times);
        }
        Ok(events)
    }
}

// Appends an event some times, into the room of the events.
fn push_copies(events: &mut Vec<Event>, event: Event, times: u32)
    requires room { vec_len events.old + times ≤ vec_capacity events.old }
    ensures items { events.new.items ≡ events.old.items ++ replicate times event }
    ensures capacity { vec_capacity events.new ≡ vec_capacity events.old }
{
    for _i in 0..times {
        events.push_reserved(event);
    }
}

/// Runs of events, from the first on: an event, and how many times it comes before another run.
/// Contracts see them as the list of the remaining events.
#[derive(Drop)]
pub struct Runs<'a> {
    runs: &'a [EventRun],
}

impl<'a> Model for Runs<'a> {
    ghost use Rattle.std.specs.Prelude.{List};
    ghost use Rattle.m161_machine.specs.declared.event.Event.{Event};
    ghost use Rattle.m161_machine.specs.Events.{unfolded};

    ghost Value = { List Event };

    ghost view = { λ left. unfolded left.runs.now };
}

impl<'a> Iterator for Runs<'a> {
    type Item = (Event, u32);

    ghost next_gives = { TakesRun };

    ghost remaining = { λ left. at_most (length left) };

    fn next(&mut self) -> Option<(Event, u32)> {
        let (first, rest) = self.runs.split_first()?;
        self.runs = rest;
        Some((first.event(), first.times()))
    }
}
