//! Events of a log, made again on a state that accepts them.

ghost use Rattle.std.specs.Prelude.{◌≡◌, ◌+◌, ◌<◌, ◌≤◌, false, length, replicate, take, slice_index_or, OnSome, Some, slice_get};
ghost use Rattle.m161_machine.specs.declared.event.Event.TheVariants as events;
ghost use Rattle.m161_machine.specs.State.{State};
ghost use Rattle.m161_machine.specs.History.{Leads, events_of, is_step_of};
ghost use Rattle.m161_machine.specs.helpers.Window.{BeginsWithStep};
ghost use Rattle.m161_machine.specs.History.{transfers_of};

use crate::event::Event;
use crate::packed::PackedEntry;
use crate::state::Core;
use m161_bus::Console;
use m161_tlb::Tlb;

// How many of the entries, from the first on, are of Steps of processor `p`.
fn steps_at_start(p: u32, entries: &[PackedEntry]) -> usize
    ensures within { result ≤ length entries.now }
    ensures steps { events_of (take result entries.now) ≡ replicate result (events.Step p) }
    ensures some { BeginsWithStep p entries.now → 1 ≤ result }
{
    let mut number = 0;
    while number < entries.len() && entries[number].is_step_of(p) {
        number += 1;
    }
    number
}

impl<T: Tlb, D: Console> Core<T, D> {
    /// Makes the events of these entries again, which it accepts with their outcomes. Returns how
    /// many of them are of `Done`. Does not allocate.
    pub(crate) fn repeat(&mut self, entries: &mut [PackedEntry]) -> usize
        requires accepted { (t : State) × Leads self.old.state entries.old t }
        requires room { transfers_of entries.old ≤ self.old.room }
        ensures leads { Leads self.old.state entries.old self.new.state }
        ensures length { length entries.new ≡ length entries.old }
        ensures sent { result ≡ transfers_of entries.old }
        ensures room { self.old.room ≤ self.new.room + result }
    {
        let mut made = 0;
        let mut sent = 0;
        while made < entries.len() {
            let (_, rest) = entries.split_at_mut(made);
            let (more, more_sent) = self.repeat_first(rest);
            made += more;
            sent += more_sent;
        }
        sent
    }

    // Makes the first of the events again, and more of them if they are Steps of one processor.
    // Returns how many, and how many of these are `Done`.
    fn repeat_first(&mut self, entries: &mut [PackedEntry]) -> (usize, usize)
        requires some { 1 ≤ length entries.old }
        requires accepted { (t : State) × Leads self.old.state entries.old t }
        requires room { transfers_of entries.old ≤ self.old.room }
        ensures some { (1 ≤ result.0) × (result.0 ≤ length entries.old) }
        ensures leads { Leads self.old.state (take result.0 entries.old) self.new.state }
        ensures same { entries.new ≡ entries.old }
        ensures sent { result.1 ≡ transfers_of (take result.0 entries.old) }
        ensures room { self.old.room ≤ self.new.room + result.1 }
    {
        match entries[0].entry().event {
            Event::Step(p) => (self.repeat_steps(p, entries), 0),
            Event::Key(byte) => {
                let _outcome = self.key(byte);
                (1, 0)
            }
            Event::Done => {
                let _outcome = self.done();
                (1, 1)
            }
        }
    }

    // Makes the Steps of processor `p` again with which the entries begin. Returns how many.
    fn repeat_steps(&mut self, p: u32, entries: &mut [PackedEntry]) -> usize
        requires step { BeginsWithStep p entries.old }
        requires accepted { (t : State) × Leads self.old.state entries.old t }
        ensures some { (1 ≤ result) × (result ≤ length entries.old) }
        ensures steps { events_of (take result entries.old) ≡ replicate result (events.Step p) }
        ensures leads { Leads self.old.state (take result entries.old) self.new.state }
        ensures same { entries.new ≡ entries.old }
        ensures room { self.new.room ≡ self.old.room }
    {
        let number = steps_at_start(p, entries);
        let (steps, _) = entries.split_at_mut(number);
        let _all = self.advance(p, steps);
        number
    }
}
