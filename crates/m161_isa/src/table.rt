//! The instruction table.

ghost use Rattle.std.specs.Prelude.{◌≡◌, ◌<◌, ◌^◌};
ghost use Rattle.m161_isa.specs.Table.{table, all_rows, code_of, AreOperands, sum_of_operands, word_with};

use crate::effect::Effect;
use crate::operand::Operand;

/// A row of the instruction table, by its name; in the order of the manual's opcode tables.
// A list of its own, since a macro of this language can't define an enum.
#[derive(Clone, Copy, Debug, PartialEq, Eq)]
pub enum Row {
    Sll,
    Srl,
    Sra,
    Sllv,
    Srlv,
    Srav,
    Jr,
    Jalr,
    Syscall,
    Break,
    Sync,
    Mfhi,
    Mthi,
    Mflo,
    Mtlo,
    Mult,
    Multu,
    Div,
    Divu,
    Add,
    Addu,
    Sub,
    Subu,
    And,
    Or,
    Xor,
    Nor,
    Slt,
    Sltu,
    Bltz,
    Bgez,
    Bltzal,
    Bgezal,
    J,
    Jal,
    Beq,
    Bne,
    Blez,
    Bgtz,
    Addi,
    Addiu,
    Slti,
    Sltiu,
    Andi,
    Ori,
    Xori,
    Lui,
    Lb,
    Lh,
    Lwl,
    Lw,
    Lbu,
    Lhu,
    Lwr,
    Sb,
    Sh,
    Swl,
    Sw,
    Swr,
    Ll,
    Sc,
    Mfc0,
    Mtc0,
    Tlbr,
    Tlbwi,
    Tlbwr,
    Tlbp,
    Rfe,
    Wait,
}

/// A row's line of the table.
struct Columns {
    // The name in the assembly text.
    name: &'static str,
    // The word with the row's fixed fields, and zeros elsewhere.
    code: u32,
    // The operands, in the order of the assembly text.
    operands: &'static [Operand],
    // What the row does.
    effect: Effect,
}

// Opcode 1, opcode 16, and opcode 16 with bit 25.
const REGIMM: u32 = 1 << 26;

const COP0: u32 = 16 << 26;

const COP0_FUNCTION: u32 = COP0 + (1 << 25);

// The lines of the table, passed to the macro `make`: row, name, code, operands and effect. Each is
// proved to be the row's line of `specs/Table.antt`.
macro_rules! lines {
    ($make:ident) => {
        $make! {
            Sll, "sll", 0, [Rd, Rt, Amount], ShiftLeft;
            Srl, "srl", 2, [Rd, Rt, Amount], ShiftRight;
            Sra, "sra", 3, [Rd, Rt, Amount], ShiftRightArithmetic;
            Sllv, "sllv", 4, [Rd, Rt, Rs], ShiftLeft;
            Srlv, "srlv", 6, [Rd, Rt, Rs], ShiftRight;
            Srav, "srav", 7, [Rd, Rt, Rs], ShiftRightArithmetic;
            Jr, "jr", 8, [Rs], Jump;
            Jalr, "jalr", 9, [Rd, Rs], JumpAndLinkRegister;
            Syscall, "syscall", 12, [], SystemCall;
            Break, "break", 13, [], Breakpoint;
            Sync, "sync", 15, [], Synchronize;
            Mfhi, "mfhi", 16, [Rd], MoveFromHi;
            Mthi, "mthi", 17, [Rs], MoveToHi;
            Mflo, "mflo", 18, [Rd], MoveFromLo;
            Mtlo, "mtlo", 19, [Rs], MoveToLo;
            Mult, "mult", 24, [Rs, Rt], Multiply;
            Multu, "multu", 25, [Rs, Rt], MultiplyUnsigned;
            Div, "div", 26, [Rs, Rt], Divide;
            Divu, "divu", 27, [Rs, Rt], DivideUnsigned;
            Add, "add", 32, [Rd, Rs, Rt], Sum;
            Addu, "addu", 33, [Rd, Rs, Rt], SumModulo;
            Sub, "sub", 34, [Rd, Rs, Rt], Difference;
            Subu, "subu", 35, [Rd, Rs, Rt], DifferenceModulo;
            And, "and", 36, [Rd, Rs, Rt], And;
            Or, "or", 37, [Rd, Rs, Rt], Or;
            Xor, "xor", 38, [Rd, Rs, Rt], Xor;
            Nor, "nor", 39, [Rd, Rs, Rt], Nor;
            Slt, "slt", 42, [Rd, Rs, Rt], SetOnLess;
            Sltu, "sltu", 43, [Rd, Rs, Rt], SetOnLessUnsigned;
            Bltz, "bltz", REGIMM + (0 << 16), [Rs, Branch], BranchOnLess;
            Bgez, "bgez", REGIMM + (1 << 16), [Rs, Branch], BranchOnGreaterOrEqual;
            Bltzal, "bltzal", REGIMM + (16 << 16), [Rs, Branch], BranchOnLessAndLink;
            Bgezal, "bgezal", REGIMM + (17 << 16), [Rs, Branch], BranchOnGreaterOrEqualAndLink;
            J, "j", 2 << 26, [Jump], Jump;
            Jal, "jal", 3 << 26, [Jump], JumpAndLink;
            Beq, "beq", 4 << 26, [Rs, Rt, Branch], BranchOnEqual;
            Bne, "bne", 5 << 26, [Rs, Rt, Branch], BranchOnNotEqual;
            Blez, "blez", 6 << 26, [Rs, Branch], BranchOnLessOrEqual;
            Bgtz, "bgtz", 7 << 26, [Rs, Branch], BranchOnGreater;
            Addi, "addi", 8 << 26, [Rt, Rs, Signed], Sum;
            Addiu, "addiu", 9 << 26, [Rt, Rs, Signed], SumModulo;
            Slti, "slti", 10 << 26, [Rt, Rs, Signed], SetOnLess;
            Sltiu, "sltiu", 11 << 26, [Rt, Rs, Signed], SetOnLessUnsigned;
            Andi, "andi", 12 << 26, [Rt, Rs, Unsigned], And;
            Ori, "ori", 13 << 26, [Rt, Rs, Unsigned], Or;
            Xori, "xori", 14 << 26, [Rt, Rs, Unsigned], Xor;
            Lui, "lui", 15 << 26, [Rt, Unsigned], LoadUpper;
            Lb, "lb", 32 << 26, [Rt, Offset, Base], LoadByte;
            Lh, "lh", 33 << 26, [Rt, Offset, Base], LoadHalf;
            Lwl, "lwl", 34 << 26, [Rt, Offset, Base], LoadWordLeft;
            Lw, "lw", 35 << 26, [Rt, Offset, Base], LoadWord;
            Lbu, "lbu", 36 << 26, [Rt, Offset, Base], LoadByteUnsigned;
            Lhu, "lhu", 37 << 26, [Rt, Offset, Base], LoadHalfUnsigned;
            Lwr, "lwr", 38 << 26, [Rt, Offset, Base], LoadWordRight;
            Sb, "sb", 40 << 26, [Rt, Offset, Base], StoreByte;
            Sh, "sh", 41 << 26, [Rt, Offset, Base], StoreHalf;
            Swl, "swl", 42 << 26, [Rt, Offset, Base], StoreWordLeft;
            Sw, "sw", 43 << 26, [Rt, Offset, Base], StoreWord;
            Swr, "swr", 46 << 26, [Rt, Offset, Base], StoreWordRight;
            Ll, "ll", 48 << 26, [Rt, Offset, Base], LoadLinked;
            Sc, "sc", 56 << 26, [Rt, Offset, Base], StoreConditional;
            Mfc0, "mfc0", COP0 + (0 << 21), [Rt, Cop0], MoveFromCop0;
            Mtc0, "mtc0", COP0 + (4 << 21), [Rt, Cop0], MoveToCop0;
            Tlbr, "tlbr", COP0_FUNCTION + 1, [], ReadTlb;
            Tlbwi, "tlbwi", COP0_FUNCTION + 2, [], WriteTlbIndexed;
            Tlbwr, "tlbwr", COP0_FUNCTION + 6, [], WriteTlbRandom;
            Tlbp, "tlbp", COP0_FUNCTION + 8, [], ProbeTlb;
            Rfe, "rfe", COP0_FUNCTION + 16, [], RestoreFromException;
            Wait, "wait", COP0_FUNCTION + 32, [], WaitForInterrupt;
        }
    };
}

macro_rules! rows {
    ($($row:ident, $name:literal, $code:expr, [$($operand:ident),*], $effect:ident;)*) => {
        [$(Row::$row),*]
    };
}

macro_rules! columns {
    ($($row:ident, $name:literal, $code:expr, [$($operand:ident),*], $effect:ident;)*) => {
        [$(Columns {
            name: $name,
            code: $code,
            operands: &[$(Operand::$operand),*],
            effect: Effect::$effect,
        }),*]
    };
}

/// The rows, in the table's order.
pub static ROWS: [Row; 69] = lines!(rows);

// The line of each row.
static TABLE: [Columns; 69] = lines!(columns);

/// The law of `ROWS`: it has the table's rows, each once, in the table's order.
pub fn rows_in_order()
    ensures { ROWS ≡ all_rows }
{}

impl Row {
    // Its line of the table.
    fn columns(self) -> &'static Columns
        ensures name { result.now.name.now ≡ (table self).name }
        ensures code { result.now.code ≡ code_of self }
        ensures operands { result.now.operands.now ≡ (table self).operands }
        ensures effect { result.now.effect ≡ (table self).effect }
    {
        &TABLE[self as usize]
    }

    /// Its name in the assembly text.
    pub fn name(self) -> &'static str
        ensures { result.now ≡ (table self).name }
    {
        self.columns().name
    }

    /// The word with its fixed fields, and zeros elsewhere.
    pub fn code(self) -> u32
        ensures { result ≡ code_of self }
    {
        self.columns().code
    }

    /// Its operands, in the order of the assembly text.
    pub fn operands(self) -> &'static [Operand]
        ensures { result.now ≡ (table self).operands }
    {
        self.columns().operands
    }

    /// What it does.
    pub fn effect(self) -> Effect
        ensures { result ≡ (table self).effect }
    {
        self.columns().effect
    }

    /// The word with its fixed fields and these numbers, in the order of its operands, in their
    /// fields; zeros elsewhere.
    #[tactic(auto, using(crate::proofs::Words::word_fits, crate::proofs::Words::operands_fit))]
    pub fn word(self, numbers: &[u32]) -> u32
        requires { AreOperands (table self).operands numbers.now }
        ensures { result ≡ word_with self numbers.now }
    {
        self.code() + in_fields(self.operands(), numbers)
    }
}

// The numbers in the fields of operands, zeros elsewhere.
fn in_fields(operands: &[Operand], numbers: &[u32]) -> u32
    requires operands { AreOperands operands.now numbers.now }
    requires small { sum_of_operands operands.now numbers.now < 2 ^ 32 }
    ensures { result ≡ sum_of_operands operands.now numbers.now }
{
    match operands {
        [] => 0,
        [operand, operands @ ..] => match numbers {
            [] => unreachable!(),
            [number, numbers @ ..] => {
                (number << operand.position()) + in_fields(operands, numbers)
            }
        },
    }
}
