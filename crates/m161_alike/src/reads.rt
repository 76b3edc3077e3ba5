//! What a Step reads of time.

ghost use Rattle.std.specs.Prelude.{◌≡◌, ◌<◌, if◌then◌else◌, length};
ghost use Rattle.m161_isa.specs.Instr.{instr_of};
ghost use Rattle.m161_cop0.specs.Control.{Control};
ghost use Rattle.m161_cop0.specs.Registers.{register_with};
ghost use Rattle.m161_cpu.specs.Step.{is_unusable};
ghost use Rattle.m161_alike.specs.Reads.{no_reads, reads_in, reads_of_register};
ghost use Rattle.m161_alike.specs.helpers.Reads.{reads_of_instr};

use m161_bus::Console;
use m161_cop0::Register;
use m161_decode::decode;
use m161_isa::{Instr, PlainOp, Reg};
use m161_machine::Core;
use m161_tlb::Tlb;

/// Which of a processor's two registers of time are read, or known.
#[derive(Clone, Copy, Debug, PartialEq, Eq)]
pub struct Reads {
    /// Random.
    pub random: bool,
    /// Count.
    pub count: bool,
}

/// Nothing.
const NOTHING: Reads = Reads {
    random: false,
    count: false,
};

/// Random alone.
const RANDOM: Reads = Reads {
    random: true,
    count: false,
};

/// Count alone.
const COUNT: Reads = Reads {
    random: false,
    count: true,
};

/// What a Step of a processor reads, if it is the next event.
#[tactic(auto, unfolding(crate::specs::Reads::reads_in))]
pub fn next_reads<T: Tlb, D: Console>(core: &Core<T, D>, p: u32) -> Reads
    requires { p < length core.now.state.processors }
    ensures { result ≡ reads_in p core.now.state }
{
    if !core.fetches(p) {
        return NOTHING;
    }
    match core.fetched_word(p, core.pc(p)) {
        Some(word) => reads_of_word(word, core.cop(p, Register::Status)),
        None => NOTHING,
    }
}

// What the instruction of a word reads, if this Status lets it be executed.
fn reads_of_word(word: u32, status: u32) -> Reads
    ensures { (c : Control) → c.status ≡ status
        → result ≡ (if is_unusable c word then no_reads else reads_of_instr (instr_of word)) }
{
    if is_unusable(word, status) {
        NOTHING
    } else {
        reads_of_instr(&decode(word))
    }
}

// Whether a word is of coprocessor 0, which this Status doesn't let be used.
#[tactic(auto, unfolding(m161_cop0::specs::Control::may_use_cop0, m161_cop0::specs::Control::is_user))]
fn is_unusable(word: u32, status: u32) -> bool
    ensures { (c : Control) → c.status ≡ status → result ≡ is_unusable c word }
{
    word >> 26 == 16 && (status >> 1) % 2 == 1 && (status >> 28) % 2 == 0
}

// What an instruction reads.
fn reads_of_instr(instr: &Instr) -> Reads
    ensures { result ≡ reads_of_instr instr.now }
{
    match *instr {
        Instr::MoveFromCop0 { rt: _, register } => reads_of_register(register),
        Instr::Plain(PlainOp::Tlbwr) => RANDOM,
        _ => NOTHING,
    }
}

// What `mfc0` of a register reads.
fn reads_of_register(register: Reg) -> Reads
    ensures { result ≡ reads_of_register (register_with register) }
{
    match Register::from_number(register) {
        Some(Register::Random) => RANDOM,
        Some(Register::Count) => COUNT,
        _ => NOTHING,
    }
}
