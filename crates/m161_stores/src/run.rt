//! The stores of a run.

ghost use Rattle.std.specs.Prelude.{◌≡◌, IfOk, OnOk};
ghost use Rattle.m161_machine.specs.State.{next};
ghost use Rattle.m161_machine.specs.declared.event.Event.TheVariants as events;
ghost use Rattle.m161_stores.specs.Runs.{state_at_store, state_behind, stores_at, stores_in};

use crate::storing::is_word;
use m161_bus::Console;
use m161_machine::{Core, Event, Refusal};
use m161_tlb::Tlb;
use std::alloc::AllocError;

// Makes a Step of a processor. Returns whether it stores to this word.
#[tactic(auto, unfolding(m161_machine::specs::State::next))]
fn make_step<T: Tlb, D: Console>(core: &mut Core<T, D>, p: u32, word: u32) -> bool
    ensures stores { result ≡ stores_at word core.old.state (events.Step p)
        (next core.old.state (events.Step p)) }
    ensures state { core.new.state
        ≡ state_behind core.old.state (next core.old.state (events.Step p)) }
{
    if let Some(_refusal) = core.refusal(p) {
        return false;
    }
    let stored = core.uses(p).stored;
    match core.step(p) {
        Ok(_outcome) => is_word(word, stored),
        Err(_refusal) => false,
    }
}

// Makes a typed byte, or the end of a transfer.
fn make_input<T: Tlb, D: Console>(core: &mut Core<T, D>, event: Event) -> Result<(), AllocError>
    ensures { OnOk result (core.new.state ≡ state_behind core.old.state (next core.old.state event)) }
{
    match core.event(event) {
        Ok(_outcome) => Ok(()),
        Err(refusal) => {
            if refusal == Refusal::NoMemory {
                return Err(AllocError);
            }
            Ok(())
        }
    }
}

// Makes an event. Returns whether it stores to this word.
fn pass<T: Tlb, D: Console>(
    core: &mut Core<T, D>,
    event: Event,
    word: u32,
) -> Result<bool, AllocError>
    ensures stores { IfOk result (λ stores. stores ≡ stores_at word core.old.state event (next core.old.state event)) }
    ensures state { OnOk result (core.new.state ≡ state_behind core.old.state (next core.old.state event)) }
{
    match event {
        Event::Step(p) => Ok(make_step(core, p, word)),
        Event::Key(_) | Event::Done => {
            make_input(core, event)?;
            Ok(false)
        }
    }
}

/// Makes events in order on a machine, up to the first Step that stores to a word of RAM, and passes over
/// those that it refuses. Returns whether there is such a Step.
///
/// # Errors
/// Memory was refused, at an event `Done`.
pub fn stores_to<T: Tlb, D: Console>(
    core: &mut Core<T, D>,
    events: &[Event],
    word: u32,
) -> Result<bool, AllocError>
    ensures stores { IfOk result (λ stores. stores ≡ stores_in word core.old.state events.now) }
    ensures state { OnOk result (core.new.state ≡ state_at_store word core.old.state events.now) }
{
    for event in events {
        if pass(core, *event, word)? {
            return Ok(true);
        }
    }
    Ok(false)
}
