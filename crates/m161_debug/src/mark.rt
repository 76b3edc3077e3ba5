//! What a run compares with.

ghost use Rattle.std.specs.Prelude.{◌≡◌, ◌<◌, true, is_some, length, IfSome};
ghost use Rattle.m161_tlb.specs.Row.{hi_word, lo_word};
ghost use Rattle.m161_ram.specs.Word.{word_at};
ghost use Rattle.m161_machine.specs.State.{word_in};
ghost use Rattle.m161_debug.specs.Conditions.{is_trap, is_watchable, physical_of, register_in, row_in};
ghost use Rattle.m161_debug.specs.helpers.Marks.{is_met, mark_of, IsMark};

use crate::condition::Condition;
use m161_bus::Console;
use m161_isa::{Reg, unmapped};
use m161_machine::{Event, Machine, Outcome};
use m161_tlb::Tlb;

/// A condition with the values that it had when the run began.
#[derive(Clone, Copy)]
pub(crate) enum Mark {
    /// The run waits for nothing.
    Nothing,
    /// The word of RAM at a physical address, and its value.
    Word(u32, u32),
    /// A trap of a processor.
    Trap(u32),
    /// A general register of a processor, and its value.
    Register(u32, u32, u32),
    /// A row of a processor's TLB, and its words in EntryHi and EntryLo.
    Row(u32, u32, u32, u32),
    /// How many bytes the console has sent.
    Output(usize),
}

/// The mark of a condition in the state of a machine.
pub(crate) fn mark_of<T: Tlb, D: Console>(
    machine: &Machine<T, D>,
    condition: Option<Condition>,
) -> Mark
    requires { IfSome condition (λ c. is_watchable c machine.now.state ≡ true) }
    ensures value { result ≡ mark_of condition machine.now.state }
    ensures sound { IsMark machine.now.start.conf result }
{
    // So that the proof knows the size of the machine.
    machine.replay();
    match condition {
        None => Mark::Nothing,
        Some(Condition::Memory(address)) => {
            let at = physical_of(address);
            Mark::Word(at, word(machine, at))
        }
        Some(Condition::Trap(p)) => Mark::Trap(p),
        Some(Condition::Register(p, r)) => Mark::Register(p, r, register(machine, p, r)),
        Some(Condition::Row(p, i)) => {
            let (hi, lo) = row_words(machine, p, i);
            Mark::Row(p, i, hi, lo)
        }
        Some(Condition::Output) => Mark::Output(machine.output().len()),
    }
}

/// Whether what a run waits for holds after an event with this outcome.
pub(crate) fn is_met<T: Tlb, D: Console>(
    machine: &Machine<T, D>,
    mark: Mark,
    event: Event,
    outcome: Outcome,
) -> bool
    requires { IsMark machine.now.start.conf mark }
    ensures { result ≡ is_met mark event outcome machine.now.state }
{
    // So that the proof knows the size of the machine.
    machine.replay();
    match mark {
        Mark::Nothing => false,
        Mark::Word(at, before) => word(machine, at) != before,
        Mark::Trap(p) => event == Event::Step(p) && is_trap(outcome),
        Mark::Register(p, r, before) => register(machine, p, r) != before,
        Mark::Row(p, i, hi, lo) => row_words(machine, p, i) != (hi, lo),
        Mark::Output(sent) => machine.output().len() > sent,
    }
}

// A word of RAM.
fn word<T: Tlb, D: Console>(machine: &Machine<T, D>, at: u32) -> u32
    requires { is_some (word_in machine.now.state.memory at) ≡ true }
    ensures { result ≡ word_at machine.now.state.memory at }
{
    machine.word(at).unwrap_or(0)
}

// A general register of a processor.
fn register<T: Tlb, D: Console>(machine: &Machine<T, D>, p: u32, r: u32) -> u32
    requires { (p < length machine.now.state.processors) × (r < 32) }
    ensures { result ≡ register_in p r machine.now.state }
{
    machine.reg(p, Reg::new(r as u8))
}

// The words of a row of a processor's TLB in EntryHi and EntryLo.
fn row_words<T: Tlb, D: Console>(machine: &Machine<T, D>, p: u32, i: u32) -> (u32, u32)
    requires { (p < length machine.now.state.processors) × (i < 64) }
    ensures hi { result.0 ≡ hi_word (row_in p i machine.now.state) }
    ensures lo { result.1 ≡ lo_word (row_in p i machine.now.state) }
{
    let row = machine.row(p, i as u8);
    (row.entry_hi(), row.entry_lo())
}

/// The physical address of an address in kseg0 or kseg1; any other is taken as physical.
pub(crate) fn physical_of(address: u32) -> u32
    ensures { result ≡ physical_of address }
{
    unmapped(address).unwrap_or(address)
}

// Whether an outcome is a trap.
fn is_trap(outcome: Outcome) -> bool
    ensures { result ≡ is_trap outcome }
{
    match outcome {
        Outcome::Trapped { .. } => true,
        Outcome::Ran
        | Outcome::Idle
        | Outcome::PoweredOff
        | Outcome::Conflict { .. }
        | Outcome::Taken => false,
    }
}
