//! An exploration from any state that is met, for the ends behind it.

ghost use Rattle.std.specs.Prelude.{◌≡◌, ◌+◌, ◌<◌, IfOk, None, OnOk};
ghost use Rattle.m161_explore.specs.Rules.{Advances};
ghost use Rattle.m161_states.specs.Question.{processors_of};
ghost use Rattle.m161_states.specs.System.{Explored, event_of};
ghost use Rattle.m161_states.specs.Verdicts.{stop};
ghost use Rattle.m161_reach.specs.Reach.{IsMet};
ghost use Rattle.m161_reach.specs.From.{rules_from};
ghost use Rattle.m161_reach.specs.helpers.Advance.{TakesNext};
ghost use Rattle.m161_reach.specs.helpers.Handling.{IsHandled};
ghost use Rattle.m161_reach.specs.helpers.Onward.{origin_of};
ghost use Rattle.m161_reach.specs.Hand.{IsReady};

use crate::advance::{take_done, take_key, take_step, unknown};
use crate::hand::{Hand, forget, note_store};
use crate::kept::WatchFlags;
use crate::machines::{Machines, ram_size};
use crate::place::Place;
use m161_bus::Console;
use m161_explore::{Advanced, System};
use m161_machine::Outcome;
use m161_states::Unknown;
use m161_tlb::Tlb;
use std::alloc::{AllocError, Global};
use std::marker::Model;

// What is kept of the watches, again.
fn copy_kept(alloc: Global, kept: &[WatchFlags]) -> Result<Vec<WatchFlags>, AllocError>
    ensures { IfOk result (λ copy. copy.items ≡ kept.now) }
{
    let mut copy = Vec::with_capacity(alloc, kept.len())?;
    copy.extend_from_slice(kept)?;
    Ok(copy)
}

/// A state again. Allocates a machine.
///
/// # Errors
/// Memory is refused.
pub fn copy_place<T: Tlb + Drop, D: Console + Drop>(
    alloc: Global,
    place: &Place<T, D>,
) -> Result<Place<T, D>, AllocError>
    ensures { IfOk result (λ copy. copy ≡ place.now) }
{
    Ok(Place {
        core: place.core.copy(alloc)?,
        typed: place.typed,
        kept: copy_kept(alloc, &place.kept)?,
        agreed: place.agreed,
    })
}

/// A machine, what is asked of it, and the state from which it goes on. Contracts see the question and
/// the events that lead from boot to that state.
#[derive(Drop)]
pub struct Onward<'a, 'b, T: Tlb, D: Console> {
    machines: Machines<'a, T, D>,
    events: &'b [u32],
    from: &'b Place<T, D>,
}

impl<'a, 'b, T: Tlb, D: Console> Model for Onward<'a, 'b, T, D> {
    ghost use Rattle.std.specs.Prelude.{◌≡◌};
    ghost use Rattle.m161_reach.specs.helpers.Onward.{Origin, origin_of};

    ghost Value = { Origin };

    ghost view = { λ m. record { question = m.machines; events = m.events.now } };

    ghost invariant = { λ m. m.from.now ≡ origin_of m.machines m.events.now };
}

impl<'a, 'b, T: Tlb + Drop, D: Console + Drop> Onward<'a, 'b, T, D> {
    /// An exploration from the state on to which these events lead.
    pub fn new(
        machines: Machines<'a, T, D>,
        events: &'b [u32],
        from: &'b Place<T, D>,
    ) -> Onward<'a, 'b, T, D>
        requires { from.now ≡ origin_of machines events.now }
        ensures { result ≡ record { question = machines.entry; events = events.now } }
    {
        Onward {
            machines,
            events,
            from,
        }
    }
}

/// Makes the event with a number: its outcome, where it is accepted.
///
/// # Errors
/// Memory is refused, or the machine has accepted all events that it counts.
pub fn take_event<T: Tlb + Drop, D: Console + Drop>(
    machines: &Machines<'_, T, D>,
    place: &mut Place<T, D>,
    event: u32,
) -> Result<Option<Outcome>, AllocError>
    requires met { IsMet machines.now place.old }
    requires event { event < processors_of machines.now + 2 }
    ensures { IfOk result (TakesNext machines.now.goal place.old (event_of machines.now place.old event) place.new) }
{
    machines.boot.law();
    let processors = machines.boot.processors();
    if event < processors {
        take_step(machines.goal, place, event)
    } else if event == processors {
        take_done(machines.goal, place)
    } else {
        take_key(machines.goal, place)
    }
}

// What a Step reads that isn't known; an event that is no Step reads nothing.
fn unknown_of<T: Tlb + Drop, D: Console + Drop>(
    machines: &Machines<'_, T, D>,
    place: &Place<T, D>,
    event: u32,
) -> Option<Unknown>
    requires met { IsMet machines.now place.now }
    requires event { event < processors_of machines.now + 2 }
    ensures { result ≡ stop machines.now place.now event }
{
    machines.boot.law();
    if event < machines.boot.processors() {
        unknown(&place.core, &machines.known, event)
    } else {
        None
    }
}

// Makes an event that reads nothing unknown, and looks for an end behind it.
fn advance_known<T: Tlb + Drop, D: Console + Drop>(
    machines: &Machines<'_, T, D>,
    place: &mut Place<T, D>,
    event: u32,
) -> Result<Advanced<(), Unknown>, AllocError>
    requires met { IsMet machines.now place.old }
    requires event { event < processors_of machines.now + 2 }
    requires known { stop machines.now place.old event ≡ None }
    ensures advances { (x : Explored) → IfOk result (Advances (rules_from machines.now x) (IsMet machines.now) place.old event place.new) }
    ensures handled { IfOk result (IsHandled machines.now place.old event place.new) }
{
    match take_event(machines, place, event)? {
        Some(_outcome) => {
            if machines.ends_at(place) {
                Ok(Advanced::Judged(()))
            } else {
                Ok(Advanced::Passed)
            }
        }
        None => Ok(Advanced::Refused),
    }
}

// Makes an event of a state alone, if it reads nothing unknown.
fn advance_place<T: Tlb + Drop, D: Console + Drop>(
    machines: &Machines<'_, T, D>,
    place: &mut Place<T, D>,
    event: u32,
) -> Result<Advanced<(), Unknown>, AllocError>
    requires met { IsMet machines.now place.old }
    requires event { event < processors_of machines.now + 2 }
    ensures advances { (x : Explored) → IfOk result (Advances (rules_from machines.now x) (IsMet machines.now) place.old event place.new) }
    ensures handled { IfOk result (IsHandled machines.now place.old event place.new) }
{
    match unknown_of(machines, place, event) {
        Some(reason) => Ok(Advanced::Stopped(reason)),
        None => advance_known(machines, place, event),
    }
}

// Makes an event, if it reads nothing unknown.
fn advance<T: Tlb + Drop, D: Console + Drop>(
    machines: &Machines<'_, T, D>,
    hand: &mut Hand<T, D>,
    event: u32,
) -> Result<Advanced<(), Unknown>, AllocError>
    requires ready { IsReady machines.now hand.old }
    requires event { event < processors_of machines.now + 2 }
    ensures advances { (x : Explored) → IfOk result
        (Advances (rules_from machines.now x) (IsMet machines.now) hand.old.place event hand.new.place) }
    ensures ready { OnOk result (IsReady machines.now hand.new) }
{
    let stored = machines.stored_at(&hand.place, event);
    let came = advance_place(machines, &mut hand.place, event)?;
    note_store(&mut hand.changed, stored, ram_size(&hand.place))?;
    forget(&mut hand.words, &came);
    Ok(came)
}

impl<'a, 'b, T: Tlb + Drop, D: Console + Drop> System for Onward<'a, 'b, T, D> {
    ghost use Rattle.m161_states.specs.System.{Explored};
    ghost use Rattle.m161_reach.specs.Reach.{IsMet};
    ghost use Rattle.m161_reach.specs.Hand.{InHand, IsReady};
    ghost use Rattle.m161_reach.specs.From.{rules_from};
    ghost use Rattle.m161_reach.specs.helpers.Onward.{origin_of};
    ghost use Rattle.m161_reach.specs.helpers.MetFrom.{alike_end, alike_next, alike_stop, alike_verdict, met_next, met_start};

    type State = Hand<T, D>;

    type Verdict = ();

    type Reason = Unknown;

    ghost Seen = { Explored };

    ghost seen = { λ (h : InHand). h.place };

    ghost rules = { λ m. rules_from m.question (origin_of m.question m.events) };

    ghost is_valid = { λ m. IsMet m.question };

    ghost is_ready = { λ m. IsReady m.question };

    fn width(&self) -> u32 {
        self.machines.width()
    }

    fn start(&self, alloc: Global) -> Result<Hand<T, D>, AllocError> {
        self.machines.in_hand(alloc, copy_place(alloc, self.from)?)
    }

    fn refuses(&self, state: &Hand<T, D>, event: u32) -> bool {
        self.machines.refuses(&state.place, event)
    }

    fn advance(
        &self,
        state: &mut Hand<T, D>,
        event: u32,
    ) -> Result<Advanced<(), Unknown>, AllocError> {
        advance(&self.machines, state, event)
    }

    fn encode(&self, state: &mut Hand<T, D>, words: &mut Vec<u32>) -> Result<(), AllocError> {
        self.machines.write(state, words)
    }

    fn restore(&self, state: &mut Hand<T, D>, words: &[u32]) -> Result<(), AllocError> {
        Machines::restore(&self.machines, state, words)
    }

    fn is_end(&self, _state: &Hand<T, D>) -> bool {
        false
    }

    ghost valid_start = { met_start };

    ghost valid_next = { met_next };

    ghost alike_stop = { alike_stop };

    ghost alike_next = { alike_next };

    ghost alike_verdict = { alike_verdict };

    ghost alike_end = { alike_end };
}
