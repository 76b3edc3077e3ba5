//! The run of a list of events, from the state at boot on.

ghost use Rattle.std.specs.Prelude.{◌≡◌, ◌≤◌, IfOk, length, slice_get, string_bytes, take};
ghost use Rattle.m161_replay.specs.Replays.{number_made, place_of, state_at, trace_before};

use crate::kept::{KeptState, keep_near, last_after, state_at};
use crate::seen::event_seen;
use crate::standing::{copied, is_over, make};
use crate::traced::trace_from;
use m161_bus::Console;
use m161_machine::{Core, Event};
use m161_moves::{Run, StepSeen};
use m161_tlb::Tlb;
use std::alloc::{AllocError, Global};
use std::marker::Model;

/// The run of a list of events from a state on, standing at one of its places. It holds three states:
/// the first one, the one where it stands and one that it has kept; a way back holds one more.
#[derive(Drop)]
pub struct Replay<T: Tlb, D: Console> {
    list: Vec<Event>,
    start: Box<Core<T, D>>,
    kept: KeptState<T, D>,
    here: Box<Core<T, D>>,
    place: usize,
    last: u32,
}

impl<T: Tlb, D: Console> Model for Replay<T, D> {
    ghost use Rattle.std.specs.Prelude.{◌≤◌, length};
    ghost use Rattle.m161_replay.specs.Replays.{Replay};
    ghost use Rattle.m161_replay.specs.Standing.{IsAt};

    ghost Value = { Replay };

    ghost view = { λ r. record {
      start = r.start.value.state;
      events = r.list.items;
      place = r.place;
    } };

    ghost invariant = { λ r.
        (1 ≤ length r.start.value.state.processors)
        × IsAt r.start.value.state r.list.items r.kept.place r.kept.last r.kept.core.value.state
        × IsAt r.start.value.state r.list.items r.place r.last r.here.value.state };
}

/// The event at a place, if there is one.
pub(crate) fn event_at(list: &[Event], place: usize) -> Option<Event>
    ensures { result ≡ slice_get list.now place }
{
    list.get(place).copied()
}

impl<T: Tlb + Drop, D: Console + Drop> Replay<T, D> {
    /// The run of these events from this state on, at its beginning.
    ///
    /// # Errors
    /// Memory was refused.
    #[inline(never)]
    pub fn new(
        alloc: Global,
        start: Core<T, D>,
        events: Vec<Event>,
    ) -> Result<Replay<T, D>, AllocError>
        requires { 1 ≤ length start.state.processors }
        ensures { IfOk result (λ replay.
            replay ≡ record { start = start.state; events = events.items; place = 0 }) }
    {
        let start = Box::new(alloc, start)?;
        let kept = KeptState::at_start(alloc, &*start)?;
        let here = copied(alloc, &*start)?;
        Ok(Replay {
            list: events,
            start,
            kept,
            here,
            place: 0,
            last: 0,
        })
    }
}

impl<T: Tlb + Drop, D: Console + Drop> Replay<T, D> {
    // A trace's lines of the last events before the place where it stands, this number or all.
    #[tactic(auto, unfolding(crate::specs::Replays::trace_before))]
    fn lines(&self, alloc: Global, number: usize) -> Result<String, AllocError>
        ensures { IfOk result (λ text. string_bytes text
            ≡ trace_before self.now.start self.now.events self.now.place number) }
    {
        let list = self.list.as_slice();
        let first = self.place.saturating_sub(number);
        let mut before = state_at(alloc, &*self.start, list, &self.kept, first)?;
        let mut behind = Box::new(alloc, before.copy(alloc)?)?;
        trace_from(
            alloc,
            &list[..self.place],
            first,
            &mut *before,
            &mut *behind,
        )
    }

    /// A trace's lines of the last events before the place where it stands, this number or all.
    ///
    /// # Errors
    /// Memory was refused.
    pub fn trace(&self, alloc: Global, number: usize) -> Result<String, AllocError>
        ensures { IfOk result (λ text. string_bytes text
            ≡ trace_before self.now.start self.now.events (place_of self.now) number) }
    {
        self.law();
        self.lines(alloc, number)
    }
}

impl<T: Tlb, D: Console> Replay<T, D> {
    // The state at the place where it stands.
    fn core(&self) -> &Core<T, D>
        ensures { result.now.state ≡ state_at self.now.start self.now.events self.now.place }
    {
        &*self.here
    }

    /// The state at the place where it stands.
    pub fn state(&self) -> &Core<T, D>
        ensures state { result.now.state
            ≡ state_at self.now.start self.now.events (place_of self.now) }
        ensures number { length result.now.state.processors ≡ length self.now.start.processors }
    {
        self.law();
        self.core()
    }

    // Its events before the place where it stands.
    fn made(&self) -> &[Event]
        ensures { result.now ≡ take self.now.place self.now.events }
    {
        &self.list[..self.place]
    }

    /// Its events before the place where it stands.
    pub fn events_made(&self) -> &[Event]
        ensures { result.now ≡ take (place_of self.now) self.now.events }
    {
        self.law();
        self.made()
    }

    /// Its law: it has a processor, and stands not behind its end.
    pub fn law(&self)
        ensures some { 1 ≤ length self.now.start.processors }
        ensures within { self.now.place ≤ number_made self.now.start self.now.events }
    {
        let _list = &self.list;
    }

    /// Its events, those behind its end too.
    pub fn events(&self) -> &[Event]
        ensures { result.now ≡ self.now.events }
    {
        &self.list[..]
    }
}

impl<T: Tlb + Drop, D: Console + Drop> Run for Replay<T, D> {
    ghost use Rattle.std.specs.Prelude.{min};
    ghost use Rattle.m161_replay.specs.Replays.{course_of, number_made, place_of};
    ghost use Rattle.std.proofs.Common.{rules};

    type Error = AllocError;

    ghost course = { λ run. course_of run.start run.events };

    ghost place = { λ run. place_of run };

    // Memory was refused.
    ghost fails = { λ course error. Unit {0} };

    fn place(&self) -> usize {
        self.place
    }

    fn is_at_end(&self) -> bool {
        let event = event_at(self.list.as_slice(), self.place);
        is_over(&*self.here, event)
    }

    fn next_step(&self) -> Option<StepSeen> {
        match event_at(self.list.as_slice(), self.place) {
            Some(event) => event_seen(&*self.here, event),
            None => None,
        }
    }

    fn last_processor(&self) -> u32 {
        self.last
    }

    fn advance(&mut self) -> Result<(), AllocError> {
        let list = self.list.as_slice();
        let event = list[self.place];
        make(&mut *self.here, event)?;
        self.place += 1;
        self.last = last_after(event, self.last);
        Ok(())
    }

    fn go_back(&mut self, to: usize) -> Result<(), AllocError> {
        let alloc = *self.list.allocator();
        keep_near(
            alloc,
            &*self.start,
            self.list.as_slice(),
            &mut self.kept,
            to,
        )?;
        self.here = copied(alloc, &*self.kept.core)?;
        self.place = self.kept.place;
        self.last = self.kept.last;
        Ok(())
    }

    ghost within = { λ run. Prim.search rules };
}
