//! A state before its next event.

ghost use Rattle.std.specs.Prelude.{◌≡◌, IfOk, OnErr, OnOk, Ok};
ghost use Rattle.m161_cpu.specs.declared.processor.Outcome.{Outcome};
ghost use Rattle.m161_machine.specs.declared.event.Event.TheVariants as events;
ghost use Rattle.m161_machine.specs.State.{State, next};
ghost use Rattle.m161_replay.specs.helpers.Over.{is_accepted, is_over};

use m161_bus::Console;
use m161_machine::{Core, Event};
use m161_tlb::Tlb;
use std::alloc::{AllocError, Global};

/// How many events a machine accepts.
const WORN: u64 = 0x7fff_ffff_ffff_ffff;

/// Makes an event that is accepted.
///
/// # Errors
/// Memory was refused. Nothing is changed then.
pub(crate) fn make<T: Tlb, D: Console>(
    core: &mut Core<T, D>,
    event: Event,
) -> Result<(), AllocError>
    requires { (o : Outcome) × (t : State) × (next core.old.state event ≡ Ok (o, t)) }
    ensures made { OnOk result ((o : Outcome) × (next core.old.state event ≡ Ok (o, core.new.state))) }
    ensures err { OnErr result (core.new.state ≡ core.old.state) }
{
    core.reserve(1)?;
    match core.event(event) {
        Ok(_) => Ok(()),
        Err(_) => Err(AllocError),
    }
}

/// The same state again.
///
/// # Errors
/// Memory was refused.
#[inline(never)]
pub(crate) fn copied<T: Tlb + Drop, D: Console + Drop>(
    alloc: Global,
    core: &Core<T, D>,
) -> Result<Box<Core<T, D>>, AllocError>
    ensures { IfOk result (λ copy. copy.value.state ≡ core.now.state) }
{
    let copy = Box::new(alloc, core.copy(alloc)?)?;
    Ok(copy)
}

// Whether a Step of processor `p` is accepted.
#[tactic(auto, unfolding(m161_machine::specs::State::next))]
fn accepts_step<T: Tlb, D: Console>(core: &Core<T, D>, p: u32) -> bool
    ensures { result ≡ is_accepted (next core.now.state (events.Step p)) }
{
    match core.refusal(p) {
        Some(_) => false,
        None => true,
    }
}

// Whether a typed byte is accepted.
#[tactic(auto, unfolding(m161_machine::specs::State::next))]
fn accepts_key<T: Tlb, D: Console>(core: &Core<T, D>, byte: u8) -> bool
    ensures { result ≡ is_accepted (next core.now.state (events.Key byte)) }
{
    if core.is_off() {
        return false;
    }
    if core.made() >= WORN {
        return false;
    }
    core.waiting() < 256
}

// Whether the end of a sending is accepted.
fn accepts_done<T: Tlb, D: Console>(core: &Core<T, D>) -> bool
    ensures { result ≡ is_accepted (next core.now.state events.Done) }
{
    match core.refusal_of_done() {
        Some(_) => false,
        None => true,
    }
}

/// Whether an event is accepted.
pub(crate) fn accepts<T: Tlb, D: Console>(core: &Core<T, D>, event: Event) -> bool
    ensures { result ≡ is_accepted (next core.now.state event) }
{
    match event {
        Event::Step(p) => accepts_step(core, p),
        Event::Key(byte) => accepts_key(core, byte),
        Event::Done => accepts_done(core),
    }
}

/// Whether no event is made any more, where this one is next.
pub(crate) fn is_over<T: Tlb, D: Console>(core: &Core<T, D>, event: Option<Event>) -> bool
    ensures { result ≡ is_over core.now.state event }
{
    match event {
        Some(event) => !accepts(core, event),
        None => true,
    }
}
