//! Instructions: what a word is decoded into.
//!
//! The enums of operations list rows of the table once more, since an enum can't be computed from
//! one: they group the rows by their operands, so that decoding and executing match on few shapes.

ghost use Rattle.std.specs.Prelude.{◌≡◌, ◌↔◌, ℕ, Some, IsSome, IsTrue};
ghost use Rattle.m161_isa.specs.Instr.{row_of_instr};
ghost use Rattle.m161_isa.specs.helpers.Instr.{is_misfit};

use crate::amount::Amount;
use crate::immediate::Immediate;
use crate::register::Reg;
use crate::table::Row;
use crate::target::Target;

/// The kind of a shift: left, right with zeros, or right with the sign.
#[derive(Clone, Copy, Debug, PartialEq, Eq)]
pub enum ShiftOp {
    Left,
    Right,
    RightArithmetic,
}

/// An operation on two registers, into a third: the row of that name.
#[derive(Clone, Copy, Debug, PartialEq, Eq)]
pub enum ArithOp {
    Add,
    Addu,
    Sub,
    Subu,
    And,
    Or,
    Xor,
    Nor,
    Slt,
    Sltu,
}

/// An operation on two registers, into HI and LO: the row of that name.
#[derive(Clone, Copy, Debug, PartialEq, Eq)]
pub enum MultiplyOp {
    Mult,
    Multu,
    Div,
    Divu,
}

/// HI or LO.
#[derive(Clone, Copy, Debug, PartialEq, Eq)]
pub enum HiLo {
    Hi,
    Lo,
}

/// A branch's test of a register against zero, signed; two leave the return address in register
/// 31, taken or not.
#[derive(Clone, Copy, Debug, PartialEq, Eq)]
pub enum ZeroTest {
    Less,
    GreaterOrEqual,
    LessAndLink,
    GreaterOrEqualAndLink,
    LessOrEqual,
    Greater,
}

/// A branch's test of two registers.
#[derive(Clone, Copy, Debug, PartialEq, Eq)]
pub enum EqualTest {
    Equal,
    NotEqual,
}

/// A jump to a target in the word; one leaves the return address in register 31.
#[derive(Clone, Copy, Debug, PartialEq, Eq)]
pub enum JumpOp {
    Jump,
    JumpAndLink,
}

/// An operation on a register and an immediate: the row of that name.
#[derive(Clone, Copy, Debug, PartialEq, Eq)]
pub enum ImmediateOp {
    Addi,
    Addiu,
    Slti,
    Sltiu,
    Andi,
    Ori,
    Xori,
}

/// A load from memory: what is read, and how a part of a word is extended. `Linked` is `ll`.
#[derive(Clone, Copy, Debug, PartialEq, Eq)]
pub enum LoadOp {
    Byte,
    Half,
    WordLeft,
    Word,
    ByteUnsigned,
    HalfUnsigned,
    WordRight,
    Linked,
}

/// A store to memory: what of the register is written. `Conditional` is `sc`.
#[derive(Clone, Copy, Debug, PartialEq, Eq)]
pub enum StoreOp {
    Byte,
    Half,
    WordLeft,
    Word,
    WordRight,
    Conditional,
}

/// An instruction without operands: the row of that name.
#[derive(Clone, Copy, Debug, PartialEq, Eq)]
pub enum PlainOp {
    Syscall,
    Break,
    Sync,
    Tlbr,
    Tlbwi,
    Tlbwr,
    Tlbp,
    Rfe,
    Wait,
}

/// A coprocessor that the machine doesn't have.
#[derive(Clone, Copy, Debug, PartialEq, Eq)]
pub enum Coprocessor {
    One,
    Two,
    Three,
}

/// An instruction: a row of the table with its operands, or a word that fits no row.
#[derive(Clone, Copy, Debug, PartialEq, Eq)]
pub enum Instr {
    /// `sll`, `srl`, `sra`.
    Shift {
        op: ShiftOp,
        rd: Reg,
        rt: Reg,
        amount: Amount,
    },
    /// `sllv`, `srlv`, `srav`.
    ShiftVariable {
        op: ShiftOp,
        rd: Reg,
        rt: Reg,
        rs: Reg,
    },
    /// `jr`.
    JumpRegister {
        rs: Reg,
    },
    /// `jalr`.
    JumpAndLinkRegister {
        rd: Reg,
        rs: Reg,
    },
    /// `mfhi`, `mflo`.
    MoveFrom {
        from: HiLo,
        rd: Reg,
    },
    /// `mthi`, `mtlo`.
    MoveTo {
        to: HiLo,
        rs: Reg,
    },
    /// `mult`, `multu`, `div`, `divu`.
    Multiply {
        op: MultiplyOp,
        rs: Reg,
        rt: Reg,
    },
    /// `add` to `sltu`.
    Arith {
        op: ArithOp,
        rd: Reg,
        rs: Reg,
        rt: Reg,
    },
    /// `bltz`, `bgez`, `bltzal`, `bgezal`, `blez`, `bgtz`.
    BranchZero {
        test: ZeroTest,
        rs: Reg,
        offset: Immediate,
    },
    /// `j`, `jal`.
    Jump {
        op: JumpOp,
        target: Target,
    },
    /// `beq`, `bne`.
    BranchEqual {
        test: EqualTest,
        rs: Reg,
        rt: Reg,
        offset: Immediate,
    },
    /// `addi` to `xori`.
    Immediate {
        op: ImmediateOp,
        rt: Reg,
        rs: Reg,
        immediate: Immediate,
    },
    /// `lui`.
    LoadUpper {
        rt: Reg,
        immediate: Immediate,
    },
    /// `lb` to `lwr`, `ll`.
    Load {
        op: LoadOp,
        rt: Reg,
        offset: Immediate,
        base: Reg,
    },
    /// `sb` to `swr`, `sc`.
    Store {
        op: StoreOp,
        rt: Reg,
        offset: Immediate,
        base: Reg,
    },
    /// `mfc0`.
    MoveFromCop0 {
        rt: Reg,
        register: Reg,
    },
    /// `mtc0`.
    MoveToCop0 {
        rt: Reg,
        register: Reg,
    },
    /// `syscall`, `break`, `sync`, `tlbr`, `tlbwi`, `tlbwr`, `tlbp`, `rfe`, `wait`.
    Plain(PlainOp),
    /// A word of a coprocessor that isn't there.
    Absent(Coprocessor),
    /// Any other word that fits no row.
    Reserved(u32),
}

/// Whether the instruction is of a row, and not of a word that fits no row.
pub fn has_row(instr: &Instr) -> bool
    ensures { IsTrue result ↔ IsSome (row_of_instr instr.now) }
{
    !is_misfit(instr)
}

fn is_misfit(instr: &Instr) -> bool
    ensures { result ≡ is_misfit instr.now }
{
    matches!(instr, Instr::Absent(_) | Instr::Reserved(_))
}

/// The row of an instruction that has one.
///
/// This function and those below list the rows by instruction. An `Instr` doesn't contain its row,
/// so that decoding goes straight to the operation.
pub fn row_of(instr: &Instr) -> Row
    requires { IsSome (row_of_instr instr.now) }
    ensures { row_of_instr instr.now ≡ Some result }
{
    match *instr {
        Instr::Shift { op, .. } => shift_row(op),
        Instr::ShiftVariable { op, .. } => shift_variable_row(op),
        Instr::JumpRegister { .. } => Row::Jr,
        Instr::JumpAndLinkRegister { .. } => Row::Jalr,
        Instr::MoveFrom { from, .. } => move_from_row(from),
        Instr::MoveTo { to, .. } => move_to_row(to),
        Instr::Multiply { op, .. } => multiply_row(op),
        Instr::Arith { op, .. } => arith_row(op),
        Instr::BranchZero { test, .. } => branch_zero_row(test),
        Instr::Jump { op, .. } => jump_row(op),
        Instr::BranchEqual { test, .. } => branch_equal_row(test),
        Instr::Immediate { op, .. } => immediate_row(op),
        Instr::LoadUpper { .. } => Row::Lui,
        Instr::Load { op, .. } => load_row(op),
        Instr::Store { op, .. } => store_row(op),
        Instr::MoveFromCop0 { .. } => Row::Mfc0,
        Instr::MoveToCop0 { .. } => Row::Mtc0,
        Instr::Plain(op) => plain_row(op),
        Instr::Absent(_) | Instr::Reserved(_) => unreachable!(),
    }
}

fn shift_row(op: ShiftOp) -> Row
    ensures { (rd rt amount : ℕ) → row_of_instr (Instr.Shift op rd rt amount) ≡ Some result }
{
    match op {
        ShiftOp::Left => Row::Sll,
        ShiftOp::Right => Row::Srl,
        ShiftOp::RightArithmetic => Row::Sra,
    }
}

fn shift_variable_row(op: ShiftOp) -> Row
    ensures { (rd rt rs : ℕ) → row_of_instr (Instr.ShiftVariable op rd rt rs) ≡ Some result }
{
    match op {
        ShiftOp::Left => Row::Sllv,
        ShiftOp::Right => Row::Srlv,
        ShiftOp::RightArithmetic => Row::Srav,
    }
}

fn move_from_row(from: HiLo) -> Row
    ensures { (rd : ℕ) → row_of_instr (Instr.MoveFrom from rd) ≡ Some result }
{
    match from {
        HiLo::Hi => Row::Mfhi,
        HiLo::Lo => Row::Mflo,
    }
}

fn move_to_row(to: HiLo) -> Row
    ensures { (rs : ℕ) → row_of_instr (Instr.MoveTo to rs) ≡ Some result }
{
    match to {
        HiLo::Hi => Row::Mthi,
        HiLo::Lo => Row::Mtlo,
    }
}

fn multiply_row(op: MultiplyOp) -> Row
    ensures { (rs rt : ℕ) → row_of_instr (Instr.Multiply op rs rt) ≡ Some result }
{
    match op {
        MultiplyOp::Mult => Row::Mult,
        MultiplyOp::Multu => Row::Multu,
        MultiplyOp::Div => Row::Div,
        MultiplyOp::Divu => Row::Divu,
    }
}

fn arith_row(op: ArithOp) -> Row
    ensures { (rd rs rt : ℕ) → row_of_instr (Instr.Arith op rd rs rt) ≡ Some result }
{
    match op {
        ArithOp::Add => Row::Add,
        ArithOp::Addu => Row::Addu,
        ArithOp::Sub => Row::Sub,
        ArithOp::Subu => Row::Subu,
        ArithOp::And => Row::And,
        ArithOp::Or => Row::Or,
        ArithOp::Xor => Row::Xor,
        ArithOp::Nor => Row::Nor,
        ArithOp::Slt => Row::Slt,
        ArithOp::Sltu => Row::Sltu,
    }
}

fn branch_zero_row(test: ZeroTest) -> Row
    ensures { (rs offset : ℕ) → row_of_instr (Instr.BranchZero test rs offset) ≡ Some result }
{
    match test {
        ZeroTest::Less => Row::Bltz,
        ZeroTest::GreaterOrEqual => Row::Bgez,
        ZeroTest::LessAndLink => Row::Bltzal,
        ZeroTest::GreaterOrEqualAndLink => Row::Bgezal,
        ZeroTest::LessOrEqual => Row::Blez,
        ZeroTest::Greater => Row::Bgtz,
    }
}

fn jump_row(op: JumpOp) -> Row
    ensures { (target : ℕ) → row_of_instr (Instr.Jump op target) ≡ Some result }
{
    match op {
        JumpOp::Jump => Row::J,
        JumpOp::JumpAndLink => Row::Jal,
    }
}

fn branch_equal_row(test: EqualTest) -> Row
    ensures { (rs rt offset : ℕ) → row_of_instr (Instr.BranchEqual test rs rt offset)
        ≡ Some result }
{
    match test {
        EqualTest::Equal => Row::Beq,
        EqualTest::NotEqual => Row::Bne,
    }
}

fn immediate_row(op: ImmediateOp) -> Row
    ensures { (rt rs number : ℕ) → row_of_instr (Instr.Immediate op rt rs number) ≡ Some result }
{
    match op {
        ImmediateOp::Addi => Row::Addi,
        ImmediateOp::Addiu => Row::Addiu,
        ImmediateOp::Slti => Row::Slti,
        ImmediateOp::Sltiu => Row::Sltiu,
        ImmediateOp::Andi => Row::Andi,
        ImmediateOp::Ori => Row::Ori,
        ImmediateOp::Xori => Row::Xori,
    }
}

fn load_row(op: LoadOp) -> Row
    ensures { (rt offset base : ℕ) → row_of_instr (Instr.Load op rt offset base) ≡ Some result }
{
    match op {
        LoadOp::Byte => Row::Lb,
        LoadOp::Half => Row::Lh,
        LoadOp::WordLeft => Row::Lwl,
        LoadOp::Word => Row::Lw,
        LoadOp::ByteUnsigned => Row::Lbu,
        LoadOp::HalfUnsigned => Row::Lhu,
        LoadOp::WordRight => Row::Lwr,
        LoadOp::Linked => Row::Ll,
    }
}

fn store_row(op: StoreOp) -> Row
    ensures { (rt offset base : ℕ) → row_of_instr (Instr.Store op rt offset base) ≡ Some result }
{
    match op {
        StoreOp::Byte => Row::Sb,
        StoreOp::Half => Row::Sh,
        StoreOp::WordLeft => Row::Swl,
        StoreOp::Word => Row::Sw,
        StoreOp::WordRight => Row::Swr,
        StoreOp::Conditional => Row::Sc,
    }
}

fn plain_row(op: PlainOp) -> Row
    ensures { row_of_instr (Instr.Plain op) ≡ Some result }
{
    match op {
        PlainOp::Syscall => Row::Syscall,
        PlainOp::Break => Row::Break,
        PlainOp::Sync => Row::Sync,
        PlainOp::Tlbr => Row::Tlbr,
        PlainOp::Tlbwi => Row::Tlbwi,
        PlainOp::Tlbwr => Row::Tlbwr,
        PlainOp::Tlbp => Row::Tlbp,
        PlainOp::Rfe => Row::Rfe,
        PlainOp::Wait => Row::Wait,
    }
}
