//! The traps of events.

ghost use Rattle.std.specs.Prelude.{◌≡◌, ◌<◌, ◌≤◌, ◌+◌, ◌^◌, [], ◌∷◌, length, IfOk, IfSome, OnOk};
ghost use Rattle.std.specs.List.{All};
ghost use Rattle.m161_machine.specs.State.{next, processor_at};
ghost use Rattle.m161_machine.specs.declared.event.Event.TheVariants as events;
ghost use Rattle.m161_traps.specs.Traps.{is_empty_at, is_like, state_after, state_behind, trap_at, trap_if, trap_lines, trap_of};
ghost use Rattle.m161_traps.specs.helpers.Counting.{AreTold, Passes, noted, place_of};

use m161_bus::Console;
use m161_cop0::{Exception, Register};
use m161_cpu::Outcome;
use m161_isa::unmapped;
use m161_machine::{Core, Event, Refusal};
use m161_tlb::Tlb;
use std::alloc::{AllocError, Global};

/// A trap.
#[derive(Clone, Copy, Debug, PartialEq, Eq)]
pub struct Trap {
    /// How many events the machine had accepted since boot before the Step that trapped: the number
    /// of that Step, from 0.
    pub place: u64,
    /// The processor: 0 to 31.
    pub processor: u32,
    /// Why it trapped.
    pub code: Exception,
    /// Its vector: the address at which the processor goes on.
    pub vector: u32,
    /// Whether the word at the vector is in RAM, and 0, right after it.
    pub empty: bool,
    /// EPC right after it.
    pub epc: u32,
    /// BadVAddr right after it; of a code that doesn't write it, what was there before.
    pub address: u32,
}

/// The traps of a processor with a code.
#[derive(Clone, Copy, Debug, PartialEq, Eq)]
pub struct TrapLine {
    /// The first of them.
    pub first: Trap,
    /// How many there are, at least one.
    pub count: u64,
}

// Whether two traps are of the same processor and have the same code.
fn is_like(one: Trap, other: Trap) -> bool
    ensures { result ≡ is_like one other }
{
    one.processor == other.processor && one.code.number() == other.code.number()
}

// How many lines stand before that of a trap; all of them where it has none.
fn place_of(lines: &[TrapLine], trap: Trap) -> usize
    ensures { result ≡ place_of lines.now trap }
{
    let mut place = 0;
    for line in lines {
        if is_like(line.first, trap) {
            return place;
        }
        place += 1;
    }
    place
}

// Counts a trap: in the line of its processor and code, or in a new one behind the others.
fn note(lines: &mut Vec<TrapLine>, trap: Trap) -> Result<(), AllocError>
    requires { All (λ (line : TrapLine). line.count + 1 < 2 ^ 64) lines.old.items }
    ensures { OnOk result (lines.new.items ≡ noted lines.old.items trap) }
{
    let place = place_of(lines, trap);
    if place < lines.len() {
        lines[place].count += 1;
        return Ok(());
    }
    lines.push(TrapLine {
        first: trap,
        count: 1,
    })?;
    Ok(())
}

// EPC of a processor.
#[tactic(auto, unfolding(m161_cop0::specs::Control::read_of))]
fn epc_of<T: Tlb, D: Console>(core: &Core<T, D>, p: u32) -> u32
    requires { p < length core.now.state.processors }
    ensures { result ≡ (processor_at p core.now.state.processors).control.epc }
{
    core.cop(p, Register::Epc)
}

// BadVAddr of a processor.
#[tactic(auto, unfolding(m161_cop0::specs::Control::read_of))]
fn bad_address_of<T: Tlb, D: Console>(core: &Core<T, D>, p: u32) -> u32
    requires { p < length core.now.state.processors }
    ensures { result ≡ (processor_at p core.now.state.processors).control.bad_vaddr }
{
    core.cop(p, Register::BadVaddr)
}

// Whether the word at an address in kseg0 or kseg1 is in RAM, and 0.
fn is_empty_at<T: Tlb, D: Console>(core: &Core<T, D>, address: u32) -> bool
    ensures { result ≡ is_empty_at core.now.state address }
{
    match unmapped(address) {
        Some(at) => match core.word(at) {
            Some(word) => word == 0,
            None => false,
        },
        None => false,
    }
}

// The trap of a processor with this code, to this vector, in the state right after it.
fn trap_at<T: Tlb, D: Console>(
    core: &Core<T, D>,
    place: u64,
    p: u32,
    code: Exception,
    vector: u32,
) -> Trap
    requires { p < length core.now.state.processors }
    ensures { result ≡ trap_at place p code vector core.now.state }
{
    Trap {
        place,
        processor: p,
        code,
        vector,
        empty: is_empty_at(core, vector),
        epc: epc_of(core, p),
        address: bad_address_of(core, p),
    }
}

// The trap of a Step with this outcome, if it is one, in the state right after it.
fn trap_if<T: Tlb, D: Console>(
    core: &Core<T, D>,
    place: u64,
    p: u32,
    outcome: Outcome,
) -> Option<Trap>
    requires { p < length core.now.state.processors }
    ensures { result ≡ trap_if place p outcome core.now.state }
{
    match outcome {
        Outcome::Trapped { code, vector } => Some(trap_at(core, place, p, code, vector)),
        _ => None,
    }
}

// Makes a Step of a processor. Returns its trap, if it is one.
#[tactic(auto, unfolding(m161_machine::specs::State::next))]
pub(crate) fn make_step<T: Tlb, D: Console>(core: &mut Core<T, D>, p: u32) -> Option<Trap>
    ensures trap { result ≡ trap_of core.old.state (events.Step p)
        (next core.old.state (events.Step p)) }
    ensures state { core.new.state
        ≡ state_behind core.old.state (next core.old.state (events.Step p)) }
    ensures few { IfSome result (λ trap. core.old.state.made + 1 < 2 ^ 64) }
    ensures counted { IfSome result (λ trap. core.new.state.made ≡ core.old.state.made + 1) }
    ensures more { core.old.state.made ≤ core.new.state.made }
{
    if let Some(_refusal) = core.refusal(p) {
        return None;
    }
    let place = core.made();
    match core.step(p) {
        Ok(outcome) => trap_if(core, place, p, outcome),
        Err(_refusal) => None,
    }
}

// Makes a typed byte, or the end of a transfer.
pub(crate) fn make_input<T: Tlb, D: Console>(
    core: &mut Core<T, D>,
    event: Event,
) -> Result<(), AllocError>
    ensures state { OnOk result (core.new.state
        ≡ state_behind core.old.state (next core.old.state event)) }
    ensures more { OnOk result (core.old.state.made ≤ core.new.state.made) }
{
    match core.event(event) {
        Ok(_outcome) => Ok(()),
        Err(refusal) => {
            if refusal == Refusal::NoMemory {
                return Err(AllocError);
            }
            Ok(())
        }
    }
}

// Makes an event, and counts its trap, if it is one.
fn pass<T: Tlb, D: Console>(
    core: &mut Core<T, D>,
    event: Event,
    lines: &mut Vec<TrapLine>,
) -> Result<(), AllocError>
    requires { AreTold core.old.state.made lines.old.items }
    ensures passes { OnOk result (Passes core.old.state (event ∷ []) lines.old.items
        core.new.state lines.new.items) }
    ensures told { OnOk result (AreTold core.new.state.made lines.new.items) }
{
    match event {
        Event::Step(p) => {
            if let Some(trap) = make_step(core, p) {
                note(lines, trap)?;
            }
            Ok(())
        }
        Event::Key(_) | Event::Done => make_input(core, event),
    }
}

/// Makes events in order on a machine, and passes over those that it refuses. Returns a line for each
/// processor and code of a trap, in the order of the first trap of each.
///
/// # Errors
/// Memory was refused.
pub fn find_traps<T: Tlb, D: Console>(
    alloc: Global,
    core: &mut Core<T, D>,
    events: &[Event],
) -> Result<Vec<TrapLine>, AllocError>
    ensures lines { IfOk result (λ lines. lines.items ≡ trap_lines core.old.state events.now) }
    ensures state { OnOk result (core.new.state ≡ state_after core.old.state events.now) }
{
    let mut lines = Vec::new(alloc);
    for event in events {
        pass(core, *event, &mut lines)?;
    }
    Ok(lines)
}
