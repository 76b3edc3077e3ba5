//! Coprocessor 0: the registers of a processor that control traps, interrupts and translation.
//!
//! ```text
//! 0  Index     P 31, row 13..8                        written: 80003f00
//! 1  Random    row 13..8: 63, falling by one a tick, from 8 back to 63
//! 2  EntryLo   frame 31..12, N 11, D 10, V 9, G 8     written: ffffff00
//! 4  Context   PTEBase 31..21, BadVPN 20..2           written: PTEBase
//! 8  BadVAddr  the address at fault of a trap
//! 9  Count     rises by one a tick                    written: whole
//! 10 EntryHi   page 31..12, identifier 11..6          written: ffffffc0
//! 11 Compare   Count reaching it sets the timer       written: whole; Count becomes zero
//! 12 Status    CU 31..28, BEV 22, IM 15..8, and       written: f040ff3f
//!              KU and IE, old 5..4, previous 3..2, current 1..0 (KU 1 is user mode)
//! 13 Cause     BD 31, CE 29..28, IP 15..8, ExcCode 5..2   written: 00000300
//! 14 EPC       the address to return to after a trap
//! 15 PRId      000000a1
//! ```
//!
//! Other numbers read zero and ignore writes. IP has the timer at 00008000, the board's two lines
//! at 00000800 (interprocessor) and 00000400 (bus), and software's bits at 00000300; the lines
//! aren't kept here but passed with each call. Source: Kane, MIPS RISC Architecture, for the R3000;
//! the timer, the masks of Index, EntryLo and Cause, and PRId are this project's own.
#![tactic(auto)]

mod cause;
mod clock;
mod control;
mod exception;
mod register;
mod trap;

pub use cause::CauseParts;
pub use clock::random_after_ticks;
pub use control::{Cop0, Cop0Parts};
pub use exception::Exception;
pub use register::{REGISTERS, Register, registers_in_order};
pub use trap::Trap;
