//! A processor, and what one Step of it does.
//!
//! ```text
//! registers  32 of 32 bits; register 0 reads zero, and a write to it is lost
//! hi, lo     the two words of a product, or remainder and quotient
//! pc         the address of the current instruction; `following` is that of the next
//! slot       the current instruction is in a branch's delay slot
//! control    coprocessor 0; tlb: 64 rows
//! link       the first byte of the unit that the last `ll` was to, a word or an aligned 16 bytes,
//!            while it is live
//! state      stopped until it is started, then running or waiting
//! count      its Steps, idle ones included
//!
//! one Step   1 a stopped processor is idle
//!            2 a waiting one is idle until an interrupt is pending, whatever IEc is
//!            3 an interrupt that is enabled traps; there is no fetch
//!            4 fetch at pc
//!            5 opcode 16 in user mode without CU0 traps, then words that fit no row
//!            6 the effect, or its trap; on a strict machine a row of the TLB that would overlap
//!              another one isn't written: that is a conflict, and the machine is off
//!            7 Random and Count tick, also if the Step trapped or the processor waits
//!
//! addresses  kseg0 80000000, kseg1 a0000000 to physical 0; kuseg below and kseg2 above by the TLB
//!            RAM from physical 0 on; the slots only by aligned `lw` and `sw`
//! a trap     leaves general registers, HI, LO, memory and devices as they were
//! ```
//!
//! One delay slot follows each branch and jump, taken or not; a branch's target is computed from
//! the branch's own address plus 4, and a branch in a slot is a reserved instruction. The next
//! instruction may use a loaded register. Source: Kane, MIPS RISC Architecture; MIPS II for `ll`
//! and `sc`; the System/161 manual for `wait` and for starting a processor. The order of a Step,
//! when a link ends, a branch in a slot, and loads without delay are this project's own.
#![tactic(auto)]

mod compute;
mod control;
mod execute;
mod fault;
mod fetch;
mod flow;
mod kept;
mod links;
mod memory;
mod processor;
mod product;
mod row_number;
mod step;
mod translation;
mod uses;
mod uses_law;

pub use links::Links;
pub use processor::{Cpu, Outcome, ProcessorParts, ProcessorState};
pub use row_number::RowNumber;
pub use uses::{Uses, Via};
pub use uses_law::uses_tell_the_step;
