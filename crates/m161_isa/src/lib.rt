//! The instruction set, as data.
//!
//! ```text
//! word     32 bits, big-endian in memory; bit 31 is the most significant
//! fields   opcode 31..26  rs 25..21  rt 20..16  rd 15..11  amount 10..6  funct 5..0
//!          immediate 15..0  target 25..0
//! table    69 rows (`Row`), a line each: its name, its code, which is the word with the
//!          fields that a word of the row must have, its operands in the order of the assembly
//!          text, and its effect
//! code     `Instr`, what a word is decoded into
//! kseg0    80000000 to 9fffffff, and kseg1, a0000000 to bfffffff: two views of the first 2^29
//!          bytes of physical memory, without the TLB
//! ```
//!
//! The table itself is `specs/Table.antt`: one line for each row, in the order of the manual's
//! opcode tables. Source: Kane, MIPS RISC Architecture, for the R3000; `sync`, `ll` and `sc`
//! are MIPS II's; `wait` is System/161's.
#![tactic(auto)]

mod address;
mod amount;
mod effect;
mod immediate;
mod instr;
mod link;
mod operand;
mod register;
mod table;
mod target;

pub use address::{KSEG_SIZE, unmapped};
pub use amount::Amount;
pub use effect::Effect;
pub use immediate::Immediate;
pub use instr::{
    ArithOp, Coprocessor, EqualTest, HiLo, ImmediateOp, Instr, JumpOp, LoadOp, MultiplyOp, PlainOp,
    ShiftOp, StoreOp, ZeroTest, has_row, row_of,
};
pub use link::LinkUnit;
pub use operand::Operand;
pub use register::Reg;
pub use table::{ROWS, Row, rows_in_order};
pub use target::Target;
