//! The words of a processor.

ghost use Rattle.std.specs.Prelude.{◌≡◌, ◌+◌, ◌*◌, ◌<◌, ◌++◌, length, OnOk, OnErr};
ghost use Rattle.m161_machine.specs.State.{processor_at};
ghost use Rattle.m161_alike.specs.View.{control_view, known_of, processor_view};
ghost use Rattle.m161_alike.specs.Words.{ProcessorLaw, control_words, flag, number_of_state, place_words, processor_words, register_words, row_words, rows_words};
ghost use Rattle.m161_alike.specs.helpers.Words.{Begins};

use crate::known::Known;
use crate::reads::Reads;
use m161_bus::Console;
use m161_cop0::Register;
use m161_cpu::ProcessorState;
use m161_isa::Reg;
use m161_machine::Core;
use m161_tlb::{Row, Tlb};
use std::alloc::AllocError;

/// Writes the words of a processor's view behind the words that are there.
///
/// # Errors
/// Memory is refused. Nothing is changed then.
pub fn write_processor<T: Tlb, D: Console>(
    core: &Core<T, D>,
    known: &Known,
    p: u32,
    out: &mut Vec<u32>,
) -> Result<(), AllocError>
    requires { p < length core.now.state.processors }
    ensures ok { OnOk result (out.new.items ≡ out.old.items
        ++ processor_words (processor_view (known_of known.now p) (processor_at p core.now.state.processors))) }
    ensures err { OnErr result (out.new.items ≡ out.old.items) }
{
    core.law();
    let before = out.len();
    match push_processor(core, known.of(p), p, out) {
        Ok(()) => Ok(()),
        Err(error) => {
            out.truncate(before);
            Err(error)
        }
    }
}

// The same; after an error some of the words are there.
#[tactic(auto, using(crate::proofs::Written::begins_more))]
fn push_processor<T: Tlb, D: Console>(
    core: &Core<T, D>,
    known: Reads,
    p: u32,
    out: &mut Vec<u32>,
) -> Result<(), AllocError>
    requires { p < length core.now.state.processors }
    ensures ok { OnOk result (out.new.items ≡ out.old.items
        ++ processor_words (processor_view known (processor_at p core.now.state.processors))) }
    ensures err { OnErr result (Begins out.old.items out.new.items) }
{
    out.extend_from_slice(&registers(core, p))?;
    push_place(core, p, out)?;
    push_control(core, known, p, out)?;
    out.extend_from_slice(&rows(core, p))?;
    Ok(())
}

// The general registers.
fn registers<T: Tlb, D: Console>(core: &Core<T, D>, p: u32) -> [u32; 32]
    requires { p < length core.now.state.processors }
    ensures { result ≡ register_words (processor_at p core.now.state.processors) }
{
    let mut words = [0; 32];
    for r in 0..32u8 {
        words[r as usize] = core.reg(p, Reg::new(r));
    }
    words
}

// Where it is, and what it is doing.
fn push_place<T: Tlb, D: Console>(
    core: &Core<T, D>,
    p: u32,
    out: &mut Vec<u32>,
) -> Result<(), AllocError>
    requires { p < length core.now.state.processors }
    ensures ok { OnOk result
        (out.new.items ≡ out.old.items ++ place_words (processor_at p core.now.state.processors)) }
    ensures err { OnErr result (out.new.items ≡ out.old.items) }
{
    out.extend_from_slice(&[
        core.hi(p),
        core.lo(p),
        core.pc(p),
        core.following(p),
        u32::from(core.in_slot(p)),
        state_word(core.state(p)),
    ])
}

// What it is doing, as a word.
fn state_word(state: ProcessorState) -> u32
    ensures { result ≡ number_of_state state }
{
    match state {
        ProcessorState::Stopped => 0,
        ProcessorState::Running => 1,
        ProcessorState::Waiting => 2,
    }
}

// Random, if it is known.
#[tactic(auto, unfolding(m161_cop0::specs::Control::read_of))]
fn random<T: Tlb, D: Console>(core: &Core<T, D>, known: Reads, p: u32) -> u32
    requires { p < length core.now.state.processors }
    ensures { result ≡ (control_view known (processor_at p core.now.state.processors).control).random }
{
    if known.random {
        core.cop(p, Register::Random) >> 8
    } else {
        63
    }
}

// Count, if it is known, or a timer is armed.
#[tactic(auto, unfolding(m161_cop0::specs::Control::read_of))]
fn count<T: Tlb, D: Console>(core: &Core<T, D>, known: Reads, p: u32) -> u32
    requires { p < length core.now.state.processors }
    ensures { result ≡ (control_view known (processor_at p core.now.state.processors).control).count }
{
    if known.count || core.cop(p, Register::Compare) != 0 {
        core.cop(p, Register::Count)
    } else {
        0
    }
}

// Coprocessor 0.
#[tactic(auto, unfolding(m161_cop0::specs::Control::read_of))]
fn push_control<T: Tlb, D: Console>(
    core: &Core<T, D>,
    known: Reads,
    p: u32,
    out: &mut Vec<u32>,
) -> Result<(), AllocError>
    requires { p < length core.now.state.processors }
    ensures ok { OnOk result (out.new.items ≡ out.old.items
        ++ control_words (control_view known (processor_at p core.now.state.processors).control)) }
    ensures err { OnErr result (out.new.items ≡ out.old.items) }
{
    let cause = core.cause_parts(p);
    out.extend_from_slice(&[
        core.cop(p, Register::Index),
        random(core, known, p),
        core.cop(p, Register::EntryLo),
        core.cop(p, Register::Context),
        core.cop(p, Register::BadVaddr),
        count(core, known, p),
        core.cop(p, Register::EntryHi),
        core.cop(p, Register::Compare),
        core.cop(p, Register::Status),
        core.cop(p, Register::Epc),
        u32::from(cause.branch_delay),
        u32::from(cause.unit),
        u32::from(cause.code),
        u32::from(cause.timer),
        u32::from(cause.software),
    ])
}

// The rows of the TLB. For LLVM: a list that is written here is no part of what the processor is read from,
// as one that grows could be.
fn rows<T: Tlb, D: Console>(core: &Core<T, D>, p: u32) -> [u32; 192]
    requires { p < length core.now.state.processors }
    ensures { result ≡ rows_words (processor_at p core.now.state.processors) }
{
    let mut words = [0; 192];
    for i in 0..64u8 {
        let row = core.row(p, i);
        let first = 3 * i as usize;
        words[first] = row.page.number();
        words[first + 1] = row.frame.number();
        words[first + 2] = row_flags(row);
    }
    words
}

// A row's identifier, and its flags below it.
fn row_flags(row: Row) -> u32
    ensures { result ≡ row.id * 16 + (flag row.n * 8 + flag row.d * 4 + flag row.v * 2 + flag row.g) }
{
    u32::from(row.id.number()) * 16
        + (u32::from(row.n) * 8 + u32::from(row.d) * 4 + u32::from(row.v) * 2 + u32::from(row.g))
}

/// The law of the words of a processor.
pub fn words_tell_a_processor()
    ensures { ProcessorLaw }
{}
