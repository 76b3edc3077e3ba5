//! The words of RAM that a Step touches.

ghost use Rattle.std.specs.Prelude.{◌≡◌, ◌<◌, Ok, Some, length};
ghost use Rattle.m161_cpu.specs.Fetch.{fetched_word};
ghost use Rattle.m161_machine.specs.declared.event.Event.TheVariants as events;
ghost use Rattle.m161_machine.specs.State.{State, next, processor_at};
ghost use Rattle.m161_machine.specs.Uses.{uses_in};
ghost use Rattle.m161_trace.specs.Loads.{loaded_by};
ghost use Rattle.m161_trace.specs.Touched.{has_word, is_word, touched};

use crate::loads::loaded;
use m161_bus::Console;
use m161_cpu::Via;
use m161_machine::{Core, Event, Outcome};
use m161_tlb::Tlb;

/// The words of RAM that an event touches, by the physical addresses of their first bytes.
#[derive(Clone, Copy)]
pub struct Touched {
    /// The word that its Step loads from, if it does.
    pub loaded: Option<u32>,
    /// The word that it stores to, if it does.
    pub stored: Option<u32>,
}

// Whether a word is this one, if there is one.
fn is_word(word: u32, at: Option<u32>) -> bool
    ensures { result ≡ is_word word at }
{
    match at {
        Some(at) => word == at,
        None => false,
    }
}

impl Touched {
    /// Whether the word at this physical address is one of them.
    pub fn has(self, word: u32) -> bool
        ensures { result ≡ has_word word self }
    {
        is_word(word, self.loaded) || is_word(word, self.stored)
    }
}

// The word of RAM that a Step of processor `p` loads from, which would fetch this word, and whose load
// or store is through this row.
fn loaded_by<T: Tlb, D: Console>(
    core: &Core<T, D>,
    p: u32,
    fetch: Option<u32>,
    via: Option<Via>,
    outcome: Outcome,
) -> Option<u32>
    requires accepted { (t : State) × (next core.now.state (events.Step p) ≡ Ok (outcome, t)) }
    requires processor { p < length core.now.state.processors }
    requires fetch { fetch ≡ fetched_word core.now.state.memory
        (processor_at p core.now.state.processors).pc
        (processor_at p core.now.state.processors) }
    requires via { via ≡ (uses_in p core.now.state).access }
    ensures { result ≡ loaded_by p core.now.state outcome }
{
    match outcome {
        Outcome::Ran => loaded(core, p, fetch, via),
        Outcome::Trapped { .. }
        | Outcome::Idle
        | Outcome::PoweredOff
        | Outcome::Conflict { .. }
        | Outcome::Taken => None,
    }
}

// The words that a Step of processor `p` touches.
#[tactic(auto, unfolding(crate::specs::Touched::touched))]
fn step_touched<T: Tlb, D: Console>(core: &Core<T, D>, p: u32, outcome: Outcome) -> Touched
    requires { (t : State) × (next core.now.state (events.Step p) ≡ Ok (outcome, t)) }
    ensures { result ≡ touched (events.Step p) core.now.state outcome }
{
    let fetch = core.fetched_word(p, core.pc(p));
    let uses = core.uses(p);
    Touched {
        loaded: loaded_by(core, p, fetch, uses.access, outcome),
        stored: uses.stored,
    }
}

/// The words that an event touches which is accepted in this state, with this outcome.
#[tactic(auto, unfolding(crate::specs::Touched::touched))]
pub(crate) fn event_touched<T: Tlb, D: Console>(
    core: &Core<T, D>,
    event: Event,
    outcome: Outcome,
) -> Touched
    requires { (t : State) × (next core.now.state event ≡ Ok (outcome, t)) }
    ensures { result ≡ touched event core.now.state outcome }
{
    match event {
        Event::Step(p) => step_touched(core, p, outcome),
        Event::Key(_) | Event::Done => Touched {
            loaded: None,
            stored: None,
        },
    }
}
