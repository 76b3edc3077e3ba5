//! A state at an earlier place of a run.

ghost use Rattle.std.specs.Prelude.{◌≡◌, ◌+◌, ◌-◌, ◌^◌, ◌≤◌, ◌<◌, IfOk, List, OnErr, OnOk, Ok, max};
ghost use Rattle.m161_cpu.specs.declared.processor.Outcome.{Outcome};
ghost use Rattle.m161_machine.specs.declared.event.Event.{Event};
ghost use Rattle.m161_machine.specs.State.{State, next};
ghost use Rattle.m161_replay.specs.Replays.{number_made, state_at};
ghost use Rattle.m161_replay.specs.Standing.{IsAt};
ghost use Rattle.m161_replay.specs.helpers.Standing.{last_after};

use crate::standing::make;
use m161_bus::Console;
use m161_machine::{Core, Event};
use m161_tlb::Tlb;
use std::alloc::{AllocError, Global};

/// A state at a place of a run, and the processor of the last Step before it.
#[derive(Drop)]
pub(crate) struct KeptState<T: Tlb, D: Console> {
    pub core: Box<Core<T, D>>,
    pub place: usize,
    pub last: u32,
}

/// How far before its goal the way back begins, in events.
const NEAR: usize = 65_536;

/// The processor of the last Step, if an event comes behind it.
pub(crate) fn last_after(event: Event, last: u32) -> u32
    ensures { result ≡ last_after event last }
{
    match event {
        Event::Step(p) => p,
        Event::Key(_) | Event::Done => last,
    }
}

impl<T: Tlb + Drop, D: Console + Drop> KeptState<T, D> {
    /// The state at the beginning.
    ///
    /// # Errors
    /// Memory was refused.
    #[inline(never)]
    pub(crate) fn at_start(alloc: Global, start: &Core<T, D>) -> Result<KeptState<T, D>, AllocError>
        ensures at { IfOk result (λ kept. (list : List Event)
            → IsAt start.now.state list kept.place kept.last kept.core.value.state) }
        ensures place { IfOk result (λ kept. kept.place ≡ 0) }
    {
        let core = Box::new(alloc, start.copy(alloc)?)?;
        Ok(KeptState {
            core,
            place: 0,
            last: 0,
        })
    }

    /// The same again.
    ///
    /// # Errors
    /// Memory was refused.
    #[inline(never)]
    pub(crate) fn copy(&self, alloc: Global) -> Result<KeptState<T, D>, AllocError>
        ensures state { IfOk result (λ kept. kept.core.value.state ≡ self.now.core.value.state) }
        ensures place { IfOk result (λ kept. kept.place ≡ self.now.place) }
        ensures last { IfOk result (λ kept. kept.last ≡ self.now.last) }
    {
        let core = Box::new(alloc, self.core.copy(alloc)?)?;
        Ok(KeptState {
            core,
            place: self.place,
            last: self.last,
        })
    }
}

impl<T: Tlb, D: Console> KeptState<T, D> {
    // Goes on by an event, which is accepted.
    #[inline(always)]
    fn advance(&mut self, event: Event) -> Result<(), AllocError>
        requires accepted { (o : Outcome) × (t : State)
            × (next self.old.core.value.state event ≡ Ok (o, t)) }
        requires place { self.old.place < 2 ^ 64 - 1 }
        ensures made { OnOk result ((o : Outcome)
            × (next self.old.core.value.state event ≡ Ok (o, self.new.core.value.state))) }
        ensures place { OnOk result (self.new.place ≡ self.old.place + 1) }
        ensures last { OnOk result (self.new.last ≡ last_after event self.old.last) }
        ensures err { OnErr result ((self.new.core.value.state ≡ self.old.core.value.state)
            × (self.new.place ≡ self.old.place) × (self.new.last ≡ self.old.last)) }
    {
        make(&mut *self.core, event)?;
        self.place += 1;
        self.last = last_after(event, self.last);
        Ok(())
    }

    /// Goes on to a place of the run of these events, where it isn't there yet or behind it.
    ///
    /// # Errors
    /// Memory was refused. It is at some place then.
    pub(crate) fn go_on(&mut self, list: &[Event], to: usize) -> Result<(), AllocError>
        requires { (start : State)
            × IsAt start list.now self.old.place self.old.last self.old.core.value.state
            × (to ≤ number_made start list.now) }
        ensures at { (start : State)
            → IsAt start list.now self.old.place self.old.last self.old.core.value.state
            → IsAt start list.now self.new.place self.new.last self.new.core.value.state }
        ensures place { OnOk result (self.new.place ≡ max self.old.place to) }
    {
        while self.place < to {
            self.advance(list[self.place])?;
        }
        Ok(())
    }
}

/// Keeps a state that is at most so far before a place, and not behind it.
///
/// # Errors
/// Memory was refused.
pub(crate) fn keep_near<T: Tlb + Drop, D: Console + Drop>(
    alloc: Global,
    start: &Core<T, D>,
    list: &[Event],
    kept: &mut KeptState<T, D>,
    to: usize,
) -> Result<(), AllocError>
    requires at { IsAt start.now.state list.now kept.old.place kept.old.last
        kept.old.core.value.state }
    requires to { to ≤ number_made start.now.state list.now }
    ensures at { IsAt start.now.state list.now kept.new.place kept.new.last
        kept.new.core.value.state }
    ensures place { OnOk result ((kept.new.place ≤ to) × (to ≤ kept.new.place + 65536)) }
{
    if kept.place > to {
        *kept = KeptState::at_start(alloc, start)?;
    }
    kept.go_on(list, to.saturating_sub(NEAR))
}

/// A state at a place, made from the kept one, if that isn't behind it, or else from the beginning.
///
/// # Errors
/// Memory was refused.
pub(crate) fn state_at<T: Tlb + Drop, D: Console + Drop>(
    alloc: Global,
    start: &Core<T, D>,
    list: &[Event],
    kept: &KeptState<T, D>,
    place: usize,
) -> Result<Box<Core<T, D>>, AllocError>
    requires at { IsAt start.now.state list.now kept.now.place kept.now.last
        kept.now.core.value.state }
    requires place { place ≤ number_made start.now.state list.now }
    ensures { IfOk result (λ core. core.value.state ≡ state_at start.now.state list.now place) }
{
    let mut made = if kept.place <= place {
        kept.copy(alloc)?
    } else {
        KeptState::at_start(alloc, start)?
    };
    made.go_on(list, place)?;
    let KeptState {
        core,
        place: _,
        last: _,
    } = made;
    Ok(core)
}
