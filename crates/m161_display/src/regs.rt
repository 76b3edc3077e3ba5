//! The registers of a processor.

ghost use Rattle.std.specs.Prelude.{◌≡◌, ◌++◌, ◌<◌, length, codes, decimal, string_bytes, IfOk, OnOk, Some};
ghost use Rattle.m161_machine.specs.State.{processor_at};
ghost use Rattle.m161_display.specs.Shows.{hi_lo_line, name_and_word, place_line, place_text, register_and_word, registers_line, show_regs_text, state_text};
ghost use Rattle.m161_text.specs.Lines.{with_line_end};

use m161_bus::Console;
use m161_isa::Reg;
use m161_machine::{Core, ProcessorState};
use m161_text::Word;
use m161_tlb::Tlb;
use std::alloc::{AllocError, Global};
use std::fmt;
use std::fmt::Write;

/// What a processor is doing, shown as a word.
#[derive(Drop)]
pub(crate) struct ShownState(pub(crate) ProcessorState);

impl fmt::Display for ShownState {
    ghost output = { λ s. Some (state_text s.0) };

    fn fmt<W: fmt::Write>(&self, f: &mut fmt::Formatter<W>) -> fmt::Result {
        match self.0 {
            ProcessorState::Stopped => write!(f, "stopped"),
            ProcessorState::Running => write!(f, "running"),
            ProcessorState::Waiting => write!(f, "waiting"),
        }
    }
}

/// What a processor is doing, and where, shown as a line without its end.
#[derive(Drop)]
struct ShownPlace {
    processor: u32,
    state: ProcessorState,
    pc: u32,
    in_slot: bool,
}

impl fmt::Display for ShownPlace {
    ghost output = { λ s. Some (place_text s.processor s.state s.pc s.in_slot) };

    fn fmt<W: fmt::Write>(&self, f: &mut fmt::Formatter<W>) -> fmt::Result {
        let (p, state, pc) = (self.processor, ShownState(self.state), Word(self.pc));
        if self.in_slot {
            write!(f, "cpu {p} {state} pc {pc} slot")
        } else {
            write!(f, "cpu {p} {state} pc {pc}")
        }
    }
}

/// A general register, shown as its number and its word.
#[derive(Drop)]
struct ShownRegister {
    number: u8,
    word: u32,
}

impl fmt::Display for ShownRegister {
    ghost use Rattle.std.specs.Prelude.{codes, decimal, ◌++◌};

    ghost output = { λ r. Some (name_and_word (codes "r" ++ decimal r.number) r.word) };

    #[tactic(auto, unfolding(crate::specs::Shows::name_and_word))]
    fn fmt<W: fmt::Write>(&self, f: &mut fmt::Formatter<W>) -> fmt::Result {
        let number = self.number;
        write!(f, "r{number} {}", Word(self.word))
    }
}

/// A processor's registers: its number, what it is doing, its address and whether that is in a delay
/// slot; the general registers, four a line; HI and LO: ten lines.
///
/// # Errors
/// Memory was refused.
#[tactic(auto, unfolding(crate::specs::Shows::show_regs_text))]
pub fn show_regs<T: Tlb, D: Console>(
    alloc: Global,
    core: &Core<T, D>,
    p: u32,
) -> Result<String, AllocError>
    requires { p < length core.now.state.processors }
    ensures { IfOk result (λ text. string_bytes text
        ≡ show_regs_text p core.now.state) }
{
    let mut text = String::new(alloc);
    write_place(&mut text, core, p)?;
    for i in 0..8u8 {
        write_registers(&mut text, core, p, i)?;
    }
    write_hi_lo(&mut text, core, p)?;
    Ok(text)
}

// What a processor is doing, and where.
fn write_place<T: Tlb, D: Console>(
    text: &mut String,
    core: &Core<T, D>,
    p: u32,
) -> Result<(), AllocError>
    requires { p < length core.now.state.processors }
    ensures { OnOk result (string_bytes text.new ≡ string_bytes text.old
        ++ with_line_end (place_line p (processor_at p core.now.state.processors))) }
{
    let place = ShownPlace {
        processor: p,
        state: core.state(p),
        pc: core.pc(p),
        in_slot: core.in_slot(p),
    };
    writeln!(text, "{place}")
}

// Four registers, of line `i`.
fn write_registers<T: Tlb, D: Console>(
    text: &mut String,
    core: &Core<T, D>,
    p: u32,
    i: u8,
) -> Result<(), AllocError>
    requires processor { p < length core.now.state.processors }
    requires line { i < 8 }
    ensures { OnOk result (string_bytes text.new ≡ string_bytes text.old
        ++ with_line_end (registers_line (processor_at p core.now.state.processors) i)) }
{
    let a = shown_register(core, p, 4 * i);
    let b = shown_register(core, p, 4 * i + 1);
    let c = shown_register(core, p, 4 * i + 2);
    let d = shown_register(core, p, 4 * i + 3);
    writeln!(text, "{a} {b} {c} {d}")
}

#[tactic(auto, unfolding(crate::specs::Shows::register_and_word))]
fn shown_register<T: Tlb, D: Console>(core: &Core<T, D>, p: u32, number: u8) -> ShownRegister
    requires processor { p < length core.now.state.processors }
    requires register { number < 32 }
    ensures { name_and_word (codes "r" ++ decimal result.number) result.word
        ≡ register_and_word (processor_at p core.now.state.processors) number }
{
    ShownRegister {
        number,
        word: core.reg(p, Reg::new(number)),
    }
}

#[tactic(auto, unfolding(crate::specs::Shows::name_and_word))]
fn write_hi_lo<T: Tlb, D: Console>(
    text: &mut String,
    core: &Core<T, D>,
    p: u32,
) -> Result<(), AllocError>
    requires { p < length core.now.state.processors }
    ensures { OnOk result (string_bytes text.new ≡ string_bytes text.old
        ++ with_line_end (hi_lo_line (processor_at p core.now.state.processors))) }
{
    let (hi, lo) = (Word(core.hi(p)), Word(core.lo(p)));
    writeln!(text, "hi {hi} lo {lo}")
}
