//! What moves see of a Step.

ghost use Rattle.std.specs.Prelude.{◌≡◌, ◌<◌, length, option_map};
ghost use Rattle.m161_machine.specs.declared.event.Event.TheVariants as events;
ghost use Rattle.m161_replay.specs.Replays.{event_seen};
ghost use Rattle.m161_replay.specs.Seen.{access_of, accessed, fetched_next, step_seen, virtual_word};

use crate::load::loaded_next;
use m161_bus::Console;
use m161_cpu::Via;
use m161_machine::{Core, Event};
use m161_moves::{Access, StepSeen};
use m161_tlb::Tlb;

// The word that the next Step of processor `p` fetches.
#[tactic(auto, unfolding(crate::specs::Seen::fetched_next))]
fn fetched_next<T: Tlb, D: Console>(core: &Core<T, D>, p: u32) -> Option<u32>
    requires { p < length core.now.state.processors }
    ensures { result ≡ fetched_next p core.now.state }
{
    if !core.fetches(p) {
        return None;
    }
    core.fetched_word(p, core.pc(p))
}

// The virtual address of a word that a row translated.
fn virtual_word(via: Option<Via>) -> Option<u32>
    ensures { result ≡ virtual_word via }
{
    let via = via?;
    Some(via.address / 4 * 4)
}

// The access of a Step that stores to this word, or else loads this one.
fn accessed(stored: Option<u32>, load: Option<u32>, mapped: Option<u32>) -> Option<Access>
    ensures { result ≡ accessed stored load mapped }
{
    match stored {
        Some(word) => Some(Access {
            is_store: true,
            word,
            mapped,
        }),
        None => {
            let word = load?;
            Some(Access {
                is_store: false,
                word,
                mapped,
            })
        }
    }
}

// The access of a Step that fetches this word, if any.
fn access_of<T: Tlb, D: Console>(core: &Core<T, D>, p: u32, fetch: Option<u32>) -> Option<Access>
    requires processor { p < length core.now.state.processors }
    requires fetch { fetch ≡ fetched_next p core.now.state }
    ensures { result ≡ access_of p core.now.state }
{
    let uses = core.uses(p);
    let load = loaded_next(core, p, fetch, uses.access);
    accessed(uses.stored, load, virtual_word(uses.access))
}

// The address of the word that it fetches, where it fetches this one from there.
fn address_fetched(pc: u32, fetch: Option<u32>) -> Option<u32>
    ensures { result ≡ option_map (λ word. pc) fetch }
{
    let _word = fetch?;
    Some(pc)
}

/// What moves see of the next Step of processor `p`.
#[tactic(auto, unfolding(crate::specs::Seen::step_seen))]
pub(crate) fn step_seen<T: Tlb, D: Console>(core: &Core<T, D>, p: u32) -> StepSeen
    requires { p < length core.now.state.processors }
    ensures { result ≡ step_seen p core.now.state }
{
    let pc = core.pc(p);
    let fetch = fetched_next(core, p);
    StepSeen {
        processor: p,
        fetched: address_fetched(pc, fetch),
        access: access_of(core, p, fetch),
    }
}

// What moves see of the next Step of a processor, if it is accepted.
fn step_if_accepted<T: Tlb, D: Console>(core: &Core<T, D>, p: u32) -> Option<StepSeen>
    ensures { result ≡ event_seen core.now.state (events.Step p) }
{
    match core.refusal(p) {
        Some(_) => None,
        None => Some(step_seen(core, p)),
    }
}

/// What moves see of an event.
pub(crate) fn event_seen<T: Tlb, D: Console>(core: &Core<T, D>, event: Event) -> Option<StepSeen>
    ensures { result ≡ event_seen core.now.state event }
{
    match event {
        Event::Step(p) => step_if_accepted(core, p),
        Event::Key(_) | Event::Done => None,
    }
}
