//! A path of events from a state on, made on one machine: the shortest way to see that many views are
//! behind a state.
//!
//! Each state along the path has a mark, a number that states with one view share. So states with
//! different marks have different views, and no view is written, nor is any state made again.

ghost use Rattle.std.specs.Prelude.{◌≡◌, ℕ, ◌+◌, ◌<◌, false, true, length, IfOk, OnOk, slice_index};
ghost use Rattle.std.specs.List.{Contains};
ghost use Rattle.std.specs.List.Sorted.{IsStrictlyIncreasing};
ghost use Rattle.m161_machine.specs.State.{processor_at};
ghost use Rattle.m161_alike.specs.View.{count_in};
ghost use Rattle.m161_states.specs.Question.{processors_of};
ghost use Rattle.m161_states.specs.System.{Explored};
ghost use Rattle.m161_reach.specs.From.{IsFreeFrom};
ghost use Rattle.m161_reach.specs.Reach.{IsMet};
ghost use Rattle.m161_reach.specs.helpers.Path.{IsPath, mark_of, mark_upto, mixed, with_place, with_registers};

use crate::machines::Machines;
use crate::onward::take_event;
use crate::place::Place;
use m161_bus::Console;
use m161_machine::{Core, Reg, Register};
use m161_tlb::Tlb;
use std::alloc::{AllocError, Global};

/// So many events are made at least before their marks are counted.
const FEW: usize = 256;

// A mark with one more word.
fn mix(mark: u64, word: u32) -> u64
    ensures { result ≡ mixed mark word }
{
    mark.wrapping_add(u64::from(word))
        .wrapping_mul(0x9e37_79b9_7f4a_7c15)
}

// A mark with the general registers of a processor.
fn mix_registers<T: Tlb, D: Console>(core: &Core<T, D>, p: u32, mark: u64) -> u64
    requires { p < length core.now.state.processors }
    ensures { result ≡ with_registers mark (processor_at p core.now.state.processors).registers 32 }
{
    let mut mixed = mark;
    for r in 0..32u8 {
        mixed = mix(mixed, core.reg(p, Reg::new(r)));
    }
    mixed
}

// Count of a processor, if its timer is armed.
#[tactic(auto, unfolding(m161_cop0::specs::Control::read_of))]
fn armed_count<T: Tlb, D: Console>(core: &Core<T, D>, p: u32) -> u32
    requires { p < length core.now.state.processors }
    ensures { result ≡ count_in false (processor_at p core.now.state.processors).control }
{
    if core.cop(p, Register::Compare) != 0 {
        core.cop(p, Register::Count)
    } else {
        0
    }
}

// The mark of a state: where each processor is, Count if its timer is armed, and its general registers.
fn mark_of<T: Tlb, D: Console>(core: &Core<T, D>) -> u64
    ensures { result ≡ mark_of core.now.state }
{
    let mut mark = 0;
    for p in 0..core.processors() {
        let place = mix(mix(mark, core.pc(p)), armed_count(core, p));
        mark = mix_registers(core, p, place);
    }
    mark
}

// The next number of a generator. Which events it leads to changes no answer, but how soon it comes.
fn after(random: u64) -> u64 {
    random
        .wrapping_mul(0x5851_f42d_4c95_7f2d)
        .wrapping_add(0x1405_7b7e_f767_814f)
}

// A number below this one, by one of the generator's.
fn below(random: u64, number: u32) -> u32
    requires { 0 < number }
    ensures { result < number }
{
    ((random >> 33) % u64::from(number)) as u32
}

// Whether an event does more than pass time, as far as is seen before it is made.
fn is_busy<T: Tlb + Drop, D: Console + Drop>(
    machines: &Machines<'_, T, D>,
    place: &Place<T, D>,
    event: u32,
) -> bool
    requires { IsMet machines.now place.now }
{
    machines.boot.law();
    if event < machines.boot.processors() {
        !place.core.rests(event)
    } else {
        !machines.refuses(place, event)
    }
}

// The first busy event from one on, in cyclic order; where none is busy, that one.
fn choose<T: Tlb + Drop, D: Console + Drop>(
    machines: &Machines<'_, T, D>,
    place: &Place<T, D>,
    first: u32,
) -> u32
    requires met { IsMet machines.now place.now }
    requires first { first < processors_of machines.now + 2 }
    ensures { result < processors_of machines.now + 2 }
{
    let width = machines.width();
    for i in 0..width {
        let event = if i < width - first {
            first + i
        } else {
            i - (width - first)
        };
        if is_busy(machines, place, event) {
            return event;
        }
    }
    first
}

// Goes on along a path by an event, unless it is refused, and notes the mark of the state behind it.
fn go_by<T: Tlb + Drop, D: Console + Drop>(
    machines: &Machines<'_, T, D>,
    place: &mut Place<T, D>,
    marks: &mut Vec<u64>,
    event: u32,
) -> Result<(), AllocError>
    requires met { IsMet machines.now place.old }
    requires event { event < processors_of machines.now + 2 }
    ensures met { OnOk result (IsMet machines.now place.new) }
    ensures path { (x : Explored) → IsPath machines.now x place.old marks.old.items
        → OnOk result (IsPath machines.now x place.new marks.new.items) }
{
    match take_event(machines, place, event)? {
        Some(_outcome) => {
            marks.push(mark_of(&place.core))?;
            Ok(())
        }
        None => Ok(()),
    }
}

// Goes on along a path by so many events, of which some may be refused.
fn go_along<T: Tlb + Drop, D: Console + Drop>(
    machines: &Machines<'_, T, D>,
    place: &mut Place<T, D>,
    marks: &mut Vec<u64>,
    random: &mut u64,
    number: usize,
) -> Result<(), AllocError>
    requires { IsMet machines.now place.old }
    ensures met { OnOk result (IsMet machines.now place.new) }
    ensures path { (x : Explored) → IsPath machines.now x place.old marks.old.items
        → OnOk result (IsPath machines.now x place.new marks.new.items) }
{
    let width = machines.width();
    for _ in 0..number {
        *random = after(*random);
        let event = choose(machines, place, below(*random, width));
        go_by(machines, place, marks, event)?;
    }
    Ok(())
}

// Keeps each mark once, in ascending order.
fn keep_once(marks: &mut Vec<u64>)
    ensures rises { IsStrictlyIncreasing marks.new.items }
    ensures keeps { (mark : ℕ) → Contains marks.old.items mark → Contains marks.new.items mark }
    ensures adds_none { (mark : ℕ) → Contains marks.new.items mark → Contains marks.old.items mark }
{
    marks.sort_unstable();
    marks.dedup();
}

/// Whether one path of events shows that a state doesn't hang: it leads to an end, or to more different
/// marks than the limit. It is given up where fewer than a quarter of the last events led to new ones.
///
/// # Errors
/// Memory is refused.
pub fn is_free_along<T: Tlb + Drop, D: Console + Drop>(
    alloc: Global,
    machines: &Machines<'_, T, D>,
    place: &mut Place<T, D>,
    limit: u32,
) -> Result<bool, AllocError>
    requires { IsMet machines.now place.old }
    ensures { IfOk result (λ free. free ≡ true → IsFreeFrom machines.now limit place.old) }
{
    let most = limit as usize;
    let mut marks = Vec::new(alloc);
    let mut random = 0;
    let mut number = FEW;
    let mut before = 0;
    while before <= most {
        go_along(machines, place, &mut marks, &mut random, number)?;
        keep_once(&mut marks);
        let count = marks.len();
        if count > most || machines.ends_at(place) {
            return Ok(true);
        }
        if count < before + number / 4 {
            return Ok(false);
        }
        before = count;
        number = FEW.max(count.min(most + 1 - count));
    }
    Ok(false)
}
