//! Words to instructions.

ghost use Rattle.std.specs.Prelude.{◌≡◌, ◌≢◌};
ghost use Rattle.m161_isa.specs.Table.{row_that_fits, numbers_of};
ghost use Rattle.m161_isa.specs.Bits.{bits_of};
ghost use Rattle.m161_isa.specs.Instr.{row_of_instr, numbers_of_instr, instr_of, rs_of, rt_of, rd_of, amount_of, immediate_of, target_of};
ghost use Rattle.m161_decode.specs.helpers.Decoded.{IsInstrOf};

use crate::fields::{amount, immediate, narrow, rd, rs, rt, target};
use m161_isa::{
    ArithOp, Coprocessor, EqualTest, HiLo, ImmediateOp, Instr, JumpOp, LoadOp, MultiplyOp, PlainOp,
    Row, ShiftOp, StoreOp, ZeroTest, has_row, row_of,
};

/// The instruction of a word: the row that it fits and the numbers in its operand fields; or
/// `Absent`, by its opcode, or `Reserved` if it fits no row.
///
/// The matches below list the rows by the bits that select them: a search of the table would cost a
/// Step some seventy tests.
#[inline(always)]
pub fn decode(word: u32) -> Instr
    ensures row { row_of_instr result ≡ row_that_fits word }
    ensures operands { numbers_of_instr result ≡ numbers_of word (row_that_fits word) }
    ensures value { result ≡ instr_of word }
{
    by_opcode::<Elsewhere>(word)
}

/// The same as `decode`, for the loop of a program. For LLVM: it is inlined into its one caller, even
/// if that is large and others call `decode`.
#[inline(always)]
pub fn decode_in_step(word: u32) -> Instr
    ensures row { row_of_instr result ≡ row_that_fits word }
    ensures operands { numbers_of_instr result ≡ numbers_of word (row_that_fits word) }
    ensures value { result ≡ instr_of word }
{
    by_opcode::<InStep>(word)
}

/// The same as `decode`, for what a Step uses. For LLVM: it is inlined into its one caller too, and the
/// Step keeps the decoder's other copy to itself.
#[inline(always)]
pub fn decode_in_uses(word: u32) -> Instr
    ensures row { row_of_instr result ≡ row_that_fits word }
    ensures operands { numbers_of_instr result ≡ numbers_of word (row_that_fits word) }
    ensures value { result ≡ instr_of word }
{
    by_opcode::<InUses>(word)
}

// The callers of the decoder. For LLVM: there is a copy of it for each, and so the copy of a Step,
// which has one caller, is inlined.
struct InStep;

struct InUses;

struct Elsewhere;

/// The row that a word fits; `None` for an absent or reserved word.
pub fn row_that_fits(word: u32) -> Option<Row>
    ensures { result ≡ row_that_fits word }
{
    let instr = decode(word);
    if has_row(&instr) {
        Some(row_of(&instr))
    } else {
        None
    }
}

#[inline(always)]
fn by_opcode<Caller>(word: u32) -> Instr
    ensures { IsInstrOf word result }
{
    match narrow(word, 26, 6) {
        0 => special::<Caller>(word),
        1 => regimm(word),
        2 => jump(JumpOp::Jump, word),
        3 => jump(JumpOp::JumpAndLink, word),
        4 => branch_equal(EqualTest::Equal, word),
        5 => branch_equal(EqualTest::NotEqual, word),
        6 => branch_zero(ZeroTest::LessOrEqual, word),
        7 => branch_zero(ZeroTest::Greater, word),
        8 => with_immediate(ImmediateOp::Addi, word),
        9 => with_immediate(ImmediateOp::Addiu, word),
        10 => with_immediate(ImmediateOp::Slti, word),
        11 => with_immediate(ImmediateOp::Sltiu, word),
        12 => with_immediate(ImmediateOp::Andi, word),
        13 => with_immediate(ImmediateOp::Ori, word),
        14 => with_immediate(ImmediateOp::Xori, word),
        15 => Instr::LoadUpper {
            rt: rt(word),
            immediate: immediate(word),
        },
        16 => cop0(word),
        17 | 49 | 57 => Instr::Absent(Coprocessor::One),
        18 | 50 | 58 => Instr::Absent(Coprocessor::Two),
        19 | 51 | 59 => Instr::Absent(Coprocessor::Three),
        32 => load(LoadOp::Byte, word),
        33 => load(LoadOp::Half, word),
        34 => load(LoadOp::WordLeft, word),
        35 => load(LoadOp::Word, word),
        36 => load(LoadOp::ByteUnsigned, word),
        37 => load(LoadOp::HalfUnsigned, word),
        38 => load(LoadOp::WordRight, word),
        40 => store(StoreOp::Byte, word),
        41 => store(StoreOp::Half, word),
        42 => store(StoreOp::WordLeft, word),
        43 => store(StoreOp::Word, word),
        46 => store(StoreOp::WordRight, word),
        48 => load(LoadOp::Linked, word),
        56 => store(StoreOp::Conditional, word),
        _ => Instr::Reserved(word),
    }
}

/// Opcode 0: by the funct.
#[inline(always)]
fn special<Caller>(word: u32) -> Instr
    requires { bits_of word 26 6 ≡ 0 }
    ensures { IsInstrOf word result }
{
    match narrow(word, 0, 6) {
        0 => shift(ShiftOp::Left, word),
        2 => shift(ShiftOp::Right, word),
        3 => shift(ShiftOp::RightArithmetic, word),
        4 => shift_variable(ShiftOp::Left, word),
        6 => shift_variable(ShiftOp::Right, word),
        7 => shift_variable(ShiftOp::RightArithmetic, word),
        8 => Instr::JumpRegister { rs: rs(word) },
        9 => Instr::JumpAndLinkRegister {
            rd: rd(word),
            rs: rs(word),
        },
        12 => Instr::Plain(PlainOp::Syscall),
        13 => Instr::Plain(PlainOp::Break),
        15 => Instr::Plain(PlainOp::Sync),
        16 => Instr::MoveFrom {
            from: HiLo::Hi,
            rd: rd(word),
        },
        17 => Instr::MoveTo {
            to: HiLo::Hi,
            rs: rs(word),
        },
        18 => Instr::MoveFrom {
            from: HiLo::Lo,
            rd: rd(word),
        },
        19 => Instr::MoveTo {
            to: HiLo::Lo,
            rs: rs(word),
        },
        24 => multiply(MultiplyOp::Mult, word),
        25 => multiply(MultiplyOp::Multu, word),
        26 => multiply(MultiplyOp::Div, word),
        27 => multiply(MultiplyOp::Divu, word),
        32 => arith(ArithOp::Add, word),
        33 => arith(ArithOp::Addu, word),
        34 => arith(ArithOp::Sub, word),
        35 => arith(ArithOp::Subu, word),
        36 => arith(ArithOp::And, word),
        37 => arith(ArithOp::Or, word),
        38 => arith(ArithOp::Xor, word),
        39 => arith(ArithOp::Nor, word),
        42 => arith(ArithOp::Slt, word),
        43 => arith(ArithOp::Sltu, word),
        _ => Instr::Reserved(word),
    }
}

/// Opcode 1: by rt.
#[inline(always)]
fn regimm(word: u32) -> Instr
    requires { bits_of word 26 6 ≡ 1 }
    ensures { IsInstrOf word result }
{
    match narrow(word, 16, 5) {
        0 => branch_zero(ZeroTest::Less, word),
        1 => branch_zero(ZeroTest::GreaterOrEqual, word),
        16 => branch_zero(ZeroTest::LessAndLink, word),
        17 => branch_zero(ZeroTest::GreaterOrEqualAndLink, word),
        _ => Instr::Reserved(word),
    }
}

/// Opcode 16: by bit 25.
#[inline(always)]
fn cop0(word: u32) -> Instr
    requires { bits_of word 26 6 ≡ 16 }
    ensures { IsInstrOf word result }
{
    if narrow(word, 25, 1) == 1 {
        cop0_function(word)
    } else {
        cop0_move(word)
    }
}

/// Opcode 16 with bit 25 set: by the funct.
#[inline(always)]
fn cop0_function(word: u32) -> Instr
    requires opcode { bits_of word 26 6 ≡ 16 }
    requires function { bits_of word 25 1 ≡ 1 }
    ensures { IsInstrOf word result }
{
    match narrow(word, 0, 6) {
        1 => Instr::Plain(PlainOp::Tlbr),
        2 => Instr::Plain(PlainOp::Tlbwi),
        6 => Instr::Plain(PlainOp::Tlbwr),
        8 => Instr::Plain(PlainOp::Tlbp),
        16 => Instr::Plain(PlainOp::Rfe),
        32 => Instr::Plain(PlainOp::Wait),
        _ => Instr::Reserved(word),
    }
}

/// Opcode 16 with bit 25 clear: by rs.
#[inline(always)]
fn cop0_move(word: u32) -> Instr
    requires opcode { bits_of word 26 6 ≡ 16 }
    requires plain { bits_of word 25 1 ≢ 1 }
    ensures { IsInstrOf word result }
{
    match narrow(word, 21, 5) {
        0 => Instr::MoveFromCop0 {
            rt: rt(word),
            register: rd(word),
        },
        4 => Instr::MoveToCop0 {
            rt: rt(word),
            register: rd(word),
        },
        _ => Instr::Reserved(word),
    }
}

#[inline(always)]
fn shift(op: ShiftOp, word: u32) -> Instr
    ensures { result ≡ Instr.Shift op (rd_of word) (rt_of word) (amount_of word) }
{
    Instr::Shift {
        op,
        rd: rd(word),
        rt: rt(word),
        amount: amount(word),
    }
}

#[inline(always)]
fn shift_variable(op: ShiftOp, word: u32) -> Instr
    ensures { result ≡ Instr.ShiftVariable op (rd_of word) (rt_of word) (rs_of word) }
{
    Instr::ShiftVariable {
        op,
        rd: rd(word),
        rt: rt(word),
        rs: rs(word),
    }
}

#[inline(always)]
fn multiply(op: MultiplyOp, word: u32) -> Instr
    ensures { result ≡ Instr.Multiply op (rs_of word) (rt_of word) }
{
    Instr::Multiply {
        op,
        rs: rs(word),
        rt: rt(word),
    }
}

#[inline(always)]
fn arith(op: ArithOp, word: u32) -> Instr
    ensures { result ≡ Instr.Arith op (rd_of word) (rs_of word) (rt_of word) }
{
    Instr::Arith {
        op,
        rd: rd(word),
        rs: rs(word),
        rt: rt(word),
    }
}

#[inline(always)]
fn branch_zero(test: ZeroTest, word: u32) -> Instr
    ensures { result ≡ Instr.BranchZero test (rs_of word) (immediate_of word) }
{
    Instr::BranchZero {
        test,
        rs: rs(word),
        offset: immediate(word),
    }
}

#[inline(always)]
fn branch_equal(test: EqualTest, word: u32) -> Instr
    ensures { result ≡ Instr.BranchEqual test (rs_of word) (rt_of word) (immediate_of word) }
{
    Instr::BranchEqual {
        test,
        rs: rs(word),
        rt: rt(word),
        offset: immediate(word),
    }
}

#[inline(always)]
fn jump(op: JumpOp, word: u32) -> Instr
    ensures { result ≡ Instr.Jump op (target_of word) }
{
    Instr::Jump {
        op,
        target: target(word),
    }
}

#[inline(always)]
fn with_immediate(op: ImmediateOp, word: u32) -> Instr
    ensures { result ≡ Instr.Immediate op (rt_of word) (rs_of word) (immediate_of word) }
{
    Instr::Immediate {
        op,
        rt: rt(word),
        rs: rs(word),
        immediate: immediate(word),
    }
}

#[inline(always)]
fn load(op: LoadOp, word: u32) -> Instr
    ensures { result ≡ Instr.Load op (rt_of word) (immediate_of word) (rs_of word) }
{
    Instr::Load {
        op,
        rt: rt(word),
        offset: immediate(word),
        base: rs(word),
    }
}

#[inline(always)]
fn store(op: StoreOp, word: u32) -> Instr
    ensures { result ≡ Instr.Store op (rt_of word) (immediate_of word) (rs_of word) }
{
    Instr::Store {
        op,
        rt: rt(word),
        offset: immediate(word),
        base: rs(word),
    }
}
