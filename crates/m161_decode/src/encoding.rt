//! Instructions to words.

ghost use Rattle.std.specs.Prelude.{◌≡◌, ◌<◌, ◌^◌, ◌↔◌, IsTrue, IsSome};
ghost use Rattle.m161_isa.specs.Table.{IsCanonical};
ghost use Rattle.m161_isa.specs.Instr.{row_of_instr, word_of};

use crate::decoding::decode;
use m161_isa::{Amount, Coprocessor, Immediate, Instr, Reg, has_row, row_of};

/// The word of an instruction, with zeros in the fields that its row doesn't use.
pub fn encode(instr: &Instr) -> u32
    ensures { result ≡ word_of instr.now }
{
    match *instr {
        Instr::Absent(unit) => absent_word(unit),
        Instr::Reserved(word) => word,
        _ => row_word(instr),
    }
}

// The word of an instruction of a row: the row's code, and the operands in their fields.
#[tactic(auto, using(m161_isa::proofs::Words::are_operands, m161_isa::proofs::Words::word_of_row))]
fn row_word(instr: &Instr) -> u32
    requires { IsSome (row_of_instr instr.now) }
    ensures { result ≡ word_of instr.now }
{
    let row = row_of(instr);
    match *instr {
        Instr::Shift { rd, rt, amount, .. } => row.word(&[reg(rd), reg(rt), bits(amount)]),
        Instr::ShiftVariable { rd, rt, rs, .. } => row.word(&[reg(rd), reg(rt), reg(rs)]),
        Instr::JumpRegister { rs } => row.word(&[reg(rs)]),
        Instr::JumpAndLinkRegister { rd, rs } => row.word(&[reg(rd), reg(rs)]),
        Instr::MoveFrom { rd, .. } => row.word(&[reg(rd)]),
        Instr::MoveTo { rs, .. } => row.word(&[reg(rs)]),
        Instr::Multiply { rs, rt, .. } => row.word(&[reg(rs), reg(rt)]),
        Instr::Arith { rd, rs, rt, .. } => row.word(&[reg(rd), reg(rs), reg(rt)]),
        Instr::BranchZero { rs, offset, .. } => row.word(&[reg(rs), half(offset)]),
        Instr::Jump { target, .. } => row.word(&[target.field()]),
        Instr::BranchEqual { rs, rt, offset, .. } => row.word(&[reg(rs), reg(rt), half(offset)]),
        Instr::Immediate {
            rt,
            rs,
            immediate,
            ..
        } => row.word(&[reg(rt), reg(rs), half(immediate)]),
        Instr::LoadUpper { rt, immediate } => row.word(&[reg(rt), half(immediate)]),
        Instr::Load {
            rt,
            offset,
            base,
            ..
        } => row.word(&[reg(rt), half(offset), reg(base)]),
        Instr::Store {
            rt,
            offset,
            base,
            ..
        } => row.word(&[reg(rt), half(offset), reg(base)]),
        Instr::MoveFromCop0 { rt, register } => row.word(&[reg(rt), reg(register)]),
        Instr::MoveToCop0 { rt, register } => row.word(&[reg(rt), reg(register)]),
        Instr::Plain(_) => row.word(&[]),
        Instr::Absent(_) | Instr::Reserved(_) => unreachable!(),
    }
}

/// Whether a word fits a row and is zero outside the row's fields and operands.
pub fn is_canonical(word: u32) -> bool
    ensures { IsTrue result ↔ IsCanonical word }
{
    let instr = decode(word);
    has_row(&instr) && encode(&instr) == word
}

fn reg(reg: Reg) -> u32
    ensures value { result ≡ reg }
    ensures small { result < 32 }
{
    u32::from(reg.number())
}

fn bits(amount: Amount) -> u32
    ensures value { result ≡ amount }
    ensures small { result < 32 }
{
    u32::from(amount.bits())
}

fn half(immediate: Immediate) -> u32
    ensures value { result ≡ immediate }
    ensures small { result < 2 ^ 16 }
{
    u32::from(immediate.half())
}

fn absent_word(unit: Coprocessor) -> u32
    ensures { result ≡ word_of (Instr.Absent unit) }
{
    match unit {
        Coprocessor::One => 17 << 26,
        Coprocessor::Two => 18 << 26,
        Coprocessor::Three => 19 << 26,
    }
}
