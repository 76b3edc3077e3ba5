//! What is seen of a state.

ghost use Rattle.std.specs.Prelude.{◌≡◌, ◌+◌, ◌/◌, ◌%◌, ◌^◌, ◌<◌, ◌≤◌, ◌++◌, true, None, Some, codes, decimal, length, option_and_then, slice_get, string_bytes, IfOk, MatchOption, OnOk};
ghost use Rattle.m161_isa.specs.Address.{unmapped};
ghost use Rattle.m161_cop0.specs.Control.{identifier_of, is_user};
ghost use Rattle.m161_machine.specs.Refusal.{name_of_refusal, number_of_refusal};
ghost use Rattle.m161_machine.specs.State.{processor_at};
ghost use Rattle.m161_steplog.specs.Text.{event_text};
ghost use Rattle.m161_text.specs.Parts.{◌␣◌};
ghost use Rattle.m161_replay.specs.Views.{activity_of, are_shown, byte_of, doing_of, last_word, listed_text, lowest_row, memory_text_of, middle_word, next_text_of, off_text, physical_by, physical_of, register_of, through};

use m161_bus::Console;
use m161_cop0::Register;
use m161_display::show_mem;
use m161_isa::{Reg, unmapped};
use m161_machine::{Conflict, Core, Event, ProcessorState, Refusal};
use m161_moves::{Activity, Doing};
use m161_text::push_hex;
use m161_tlb::{Row, Tlb};
use std::alloc::{AllocError, Global};
use std::fmt::Write;

fn activity_of(state: ProcessorState) -> Activity
    ensures { result ≡ activity_of state }
{
    match state {
        ProcessorState::Stopped => Activity::Stopped,
        ProcessorState::Running => Activity::Running,
        ProcessorState::Waiting => Activity::Waiting,
    }
}

/// Whether a processor is in user mode.
pub(crate) fn is_user<T: Tlb, D: Console>(core: &Core<T, D>, p: u32) -> bool
    requires { p < length core.now.state.processors }
    ensures { result ≡ is_user (processor_at p core.now.state.processors).control }
{
    let status = core.cop(p, Register::Status);
    (status >> 1) % 2 == 1
}

/// What a processor does.
pub(crate) fn doing<T: Tlb, D: Console>(core: &Core<T, D>, p: u32) -> Doing
    requires { p < length core.now.state.processors }
    ensures { result ≡ doing_of p core.now.state }
{
    Doing {
        activity: activity_of(core.state(p)),
        is_user: is_user(core, p),
        in_slot: core.in_slot(p),
    }
}

// The registers from Status to pc.
#[tactic(auto, unfolding(crate::specs::Views::middle_word))]
fn middle_word<T: Tlb, D: Console>(core: &Core<T, D>, p: u32, number: u32) -> Option<u32>
    requires { p < length core.now.state.processors }
    ensures { result ≡ middle_word p core.now.state number }
{
    if number == 32 {
        Some(core.cop(p, Register::Status))
    } else if number == 33 {
        Some(core.lo(p))
    } else if number == 34 {
        Some(core.hi(p))
    } else if number == 35 {
        Some(core.cop(p, Register::BadVaddr))
    } else if number == 36 {
        Some(core.cop(p, Register::Cause))
    } else if number == 37 {
        Some(core.pc(p))
    } else {
        None
    }
}

// Those from Index on.
#[tactic(auto, unfolding(crate::specs::Views::last_word))]
fn last_word<T: Tlb, D: Console>(core: &Core<T, D>, p: u32, number: u32) -> Option<u32>
    requires { p < length core.now.state.processors }
    ensures { result ≡ last_word p core.now.state number }
{
    if number == 72 {
        Some(core.cop(p, Register::Index))
    } else if number == 73 {
        Some(core.cop(p, Register::Random))
    } else if number == 74 {
        Some(core.cop(p, Register::EntryLo))
    } else if number == 75 {
        Some(core.cop(p, Register::Context))
    } else if number == 76 {
        Some(core.cop(p, Register::Count))
    } else if number == 77 {
        Some(core.cop(p, Register::EntryHi))
    } else if number == 78 {
        Some(core.cop(p, Register::Compare))
    } else if number == 79 {
        Some(core.cop(p, Register::Epc))
    } else if number == 80 {
        Some(core.cop(p, Register::Prid))
    } else {
        None
    }
}

/// A word of a processor, by its number in the protocol.
pub(crate) fn register<T: Tlb, D: Console>(core: &Core<T, D>, p: u32, number: u32) -> Option<u32>
    requires { p < length core.now.state.processors }
    ensures { result ≡ register_of p core.now.state number }
{
    if number < 32 {
        Some(core.reg(p, Reg::new(number as u8)))
    } else if number < 72 {
        middle_word(core, p, number)
    } else {
        last_word(core, p, number)
    }
}

// The lowest row that translates a page of an address space.
fn lowest_row<T: Tlb, D: Console>(core: &Core<T, D>, p: u32, page: u32, id: u8) -> Option<Row>
    requires { p < length core.now.state.processors }
    ensures { result ≡ lowest_row (processor_at p core.now.state.processors).rows page id }
{
    for i in 0..64u8 {
        let row = core.row(p, i);
        if row.matches(page, id) {
            return Some(row);
        }
    }
    None
}

// EntryHi's identifier.
fn identifier<T: Tlb, D: Console>(core: &Core<T, D>, p: u32) -> u8
    requires { p < length core.now.state.processors }
    ensures { result ≡ identifier_of (processor_at p core.now.state.processors).control }
{
    let high = core.cop(p, Register::EntryHi);
    ((high >> 6) % 64) as u8
}

// The physical address that a row gives, if it is valid.
fn through(address: u32, row: Option<Row>) -> Option<u32>
    ensures { result ≡ option_and_then (through address) row }
{
    match row {
        Some(row) => {
            if row.v {
                Some((row.frame.number() << 12) + address % (1 << 12))
            } else {
                None
            }
        }
        None => None,
    }
}

// The physical address of a virtual one.
fn physical<T: Tlb, D: Console>(core: &Core<T, D>, p: u32, address: u32) -> Option<u32>
    requires { p < length core.now.state.processors }
    ensures { result ≡ physical_by (processor_at p core.now.state.processors) address
        (unmapped address) }
{
    match unmapped(address) {
        Some(at) => Some(at),
        None => through(
            address,
            lowest_row(core, p, address >> 12, identifier(core, p)),
        ),
    }
}

// A byte of memory.
fn byte_at(memory: &[u8], at: Option<u32>) -> Option<u8>
    ensures { result ≡ option_and_then (slice_get memory.now) at }
{
    match at {
        Some(at) => memory.get(at as usize).copied(),
        None => None,
    }
}

/// The byte of RAM at a virtual address of a processor.
pub(crate) fn byte<T: Tlb, D: Console>(core: &Core<T, D>, p: u32, address: u32) -> Option<u8>
    requires { p < length core.now.state.processors }
    ensures { result ≡ byte_of p core.now.state address }
{
    byte_at(core.memory(), physical(core, p, address))
}

// The physical address that the debugger shows.
fn physical_of(address: u32) -> u32
    ensures value { result ≡ physical_of address }
    ensures aligned { address % 4 ≡ 0 → result % 4 ≡ 0 }
{
    match unmapped(address) {
        Some(at) => at,
        None => address,
    }
}

// Whether words of memory are shown.
fn are_shown<T: Tlb, D: Console>(core: &Core<T, D>, address: u32, number: u32) -> bool
    ensures { result ≡ are_shown core.now.state address number }
{
    1 <= number
        && number <= 1024
        && address % 4 == 0
        && u64::from(physical_of(address)) + 4 * u64::from(number) <= core.memory().len() as u64
}

/// Words of memory, as the debugger shows them.
pub(crate) fn memory_text<T: Tlb, D: Console>(
    alloc: Global,
    core: &Core<T, D>,
    address: u32,
    number: u32,
) -> Result<Option<String>, AllocError>
    ensures { IfOk result (λ found. MatchOption found
        (memory_text_of core.now.state address number ≡ None)
        (λ text. memory_text_of core.now.state address number ≡ Some (string_bytes text))) }
{
    if !are_shown(core, address, number) {
        return Ok(None);
    }
    let text = show_mem(alloc, core, physical_of(address), number)?;
    Ok(Some(text))
}

// Appends what switched a machine off.
fn push_off(text: &mut String, conflict: Option<Conflict>) -> Result<(), AllocError>
    ensures { OnOk result (string_bytes text.new ≡ string_bytes text.old ++ off_text conflict) }
{
    match conflict {
        Some(
            Conflict {
                processor,
                row,
                other,
            },
        ) => write!(text, "conflict {processor} {row} {other}")?,
        None => text.push_str("off")?,
    }
    Ok(())
}

// Appends an event.
fn push_event(text: &mut String, event: Event) -> Result<(), AllocError>
    ensures { OnOk result (string_bytes text.new ≡ string_bytes text.old ++ event_text event) }
{
    match event {
        Event::Step(p) => write!(text, "s {p}")?,
        Event::Key(byte) => {
            text.push_str("k ")?;
            push_hex(text, 2, u32::from(byte))?;
        }
        Event::Done => text.push_str("o")?,
    }
    Ok(())
}

// Appends a refusal.
fn push_refusal(text: &mut String, refusal: Refusal) -> Result<(), AllocError>
    ensures { OnOk result (string_bytes text.new ≡ string_bytes text.old
        ++ (codes "refused" ␣ decimal (number_of_refusal refusal) ␣ name_of_refusal refusal)) }
{
    let number = refusal.number();
    let name = refusal.name();
    write!(text, "refused {number} {name}")?;
    Ok(())
}

// Appends what comes next on a machine that is on.
fn push_listed<T: Tlb + Drop, D: Console + Drop>(
    alloc: Global,
    text: &mut String,
    core: &Core<T, D>,
    event: Option<Event>,
) -> Result<(), AllocError>
    ensures { OnOk result (string_bytes text.new ≡ string_bytes text.old
        ++ listed_text core.now.state event) }
{
    match event {
        Some(event) => {
            let mut copy = core.copy(alloc)?;
            copy.reserve(1)?;
            match copy.event(event) {
                Ok(_) => push_event(text, event),
                Err(refusal) => push_refusal(text, refusal),
            }
        }
        None => text.push_str("end"),
    }
}

/// What comes next, where this event is next in the list.
pub(crate) fn next_text<T: Tlb + Drop, D: Console + Drop>(
    alloc: Global,
    core: &Core<T, D>,
    event: Option<Event>,
) -> Result<String, AllocError>
    ensures { IfOk result (λ text. string_bytes text ≡ next_text_of core.now.state event) }
{
    let mut text = String::new(alloc);
    if core.is_off() {
        push_off(&mut text, core.conflict())?;
    } else {
        push_listed(alloc, &mut text, core, event)?;
    }
    Ok(text)
}
