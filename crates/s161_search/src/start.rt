//! Where the runs of a search begin.

ghost use Rattle.std.specs.Prelude.{◌≡◌, [], IfErr, IfOk, OnOk};
ghost use Rattle.m161_judge.specs.Begun.{IsFirstOf};
ghost use Rattle.m161_judge.specs.Memory.{IsKeptOf};
ghost use Rattle.m161_machine.specs.State.{State};
ghost use Rattle.s161_search.specs.Given.{AreAllKeys, criteria_of};
ghost use Rattle.s161_search.specs.Runs.{IsRunFault};
ghost use Rattle.s161_search.specs.helpers.Begun.{BeginsAt, IsBareFault, IsFirstFault, IsStarted, MakesFirst};
ghost use Rattle.s161_search.specs.helpers.Inputs.{given_of};

use crate::audit::fault_of_audit;
use crate::inputs::Inputs;
use crate::points::keep_on;
use m161::{Console, Tlb};
use m161_judge::{Booted, Event, First, StepMemory};
use m161_machine::Core;
use s161_base::fault::{Fault, fault_of_first};
use s161_run::events::{RunStop, make_events};
use std::alloc::{AllocError, Global};

/// Where all runs of a search begin: the state behind the events that come first, or the one at boot.
#[derive(Drop)]
pub(crate) struct Start {
    /// The machine.
    pub core: Box<Core<Tlb, Console>>,
    /// The events that were made.
    pub events: Vec<Event>,
    /// What is kept of their Steps.
    pub steps: StepMemory<Tlb, Console>,
    /// What is kept of them as first events.
    pub first: First,
}

// What is kept of the Steps of the runs before the first event.
fn start_steps<'a>(
    alloc: Global,
    booted: &Booted<Tlb, Console>,
    inputs: &Inputs,
) -> Result<StepMemory<Tlb, Console>, Fault<'a>>
    requires { BeginsAt (given_of inputs.now) booted.now }
    ensures ok { IfOk result (IsKeptOf (criteria_of (given_of inputs.now)) booted.now []) }
    ensures err { IfErr result (IsBareFault (given_of inputs.now)) }
{
    match StepMemory::new(alloc, booted, &inputs.goal()) {
        Ok(steps) => Ok(steps),
        Err(error) => Err(fault_of_audit(error, &inputs.file, inputs.first.conf.ram)),
    }
}

// Makes the events that come first, and notes those that are made.
fn make_first<'a>(
    core: &mut Core<Tlb, Console>,
    inputs: &Inputs,
    events: &mut Vec<Event>,
) -> Result<(), Fault<'a>>
    requires { events.old.items ≡ [] }
    ensures ok { OnOk result (MakesFirst (given_of inputs.now) core.old.state core.new.state events.new.items) }
    ensures err { IfErr result (IsFirstFault (given_of inputs.now) core.old.state) }
{
    let stop = make_events(core, &inputs.first.events, events)?;
    if let RunStop::Refused(k, refusal) = stop {
        return Err(fault_of_first(k as u64, refusal));
    }
    Ok(())
}

// A machine in a box.
fn boxed(alloc: Global, core: Core<Tlb, Console>) -> Result<Box<Core<Tlb, Console>>, AllocError>
    ensures { IfOk result (λ b. b.value ≡ core) }
{
    Ok(Box::new(alloc, core)?)
}

// The machine behind the events that come first, in a box; it notes those that are made.
// For LLVM: a stack frame of its own.
#[inline(never)]
fn first_core<'a>(
    alloc: Global,
    booted: &Booted<Tlb, Console>,
    inputs: &Inputs,
    events: &mut Vec<Event>,
) -> Result<Box<Core<Tlb, Console>>, Fault<'a>>
    requires { events.old.items ≡ [] }
    ensures ok { IfOk result (λ core. MakesFirst (given_of inputs.now) booted.now core.value.state events.new.items) }
    ensures err { IfErr result (IsFirstFault (given_of inputs.now) booted.now) }
{
    let mut core = booted.copy_core(alloc)?;
    make_first(&mut core, inputs, events)?;
    Ok(boxed(alloc, core)?)
}

// What is kept of events that come first, which are all accepted.
fn keep_first(
    alloc: Global,
    booted: &Booted<Tlb, Console>,
    inputs: &Inputs,
    events: &[Event],
) -> Result<First, AllocError>
    ensures { IfOk result (λ first. (t : State)
        × IsFirstOf (criteria_of (given_of inputs.now)) booted.now events.now t first) }
{
    let mut core = booted.copy_core(alloc)?;
    match First::make(&mut core, events, &inputs.goal()) {
        Ok(first) => Ok(first),
        Err(_) => Err(AllocError),
    }
}

/// Makes the events that come first, from the state at boot on.
///
/// # Errors
/// A watch is bad; or the machine refused one of the events; or memory was refused.
#[tactic(auto, using(crate::proofs::Failing::bare_is_run))]
pub(crate) fn make_start<'a>(
    alloc: Global,
    booted: &Booted<Tlb, Console>,
    inputs: &Inputs,
) -> Result<Start, Fault<'a>>
    requires booted { BeginsAt (given_of inputs.now) booted.now }
    requires keys { AreAllKeys (given_of inputs.now) }
    ensures ok { IfOk result (IsStarted (given_of inputs.now) booted.now) }
    ensures err { IfErr result (IsRunFault (given_of inputs.now)) }
{
    let mut steps = start_steps(alloc, booted, inputs)?;
    let mut events = Vec::new(alloc);
    let core = first_core(alloc, booted, inputs, &mut events)?;
    keep_on(&mut steps, &events, inputs)?;
    let first = keep_first(alloc, booted, inputs, &events)?;
    Ok(Start {
        core,
        events,
        steps,
        first,
    })
}
