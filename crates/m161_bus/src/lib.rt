//! The bus with its mainboard, and the laws of a console.
//!
//! ```text
//! slots   physical 1fe00000 + slot x 10000, slots 0 to 31, aligned words only
//!
//! slot 0    the console
//!   0000  CHAR   read: removes the oldest waiting byte and gives it, or 0;
//!                write: low byte into the latch, dropped if the latch is full
//!   0004  WIRQ   ENABLE 1, ACTIVE 2, FORCE 4; a write replaces all three
//!   0008  RIRQ   the same bits; ACTIVE: bytes wait; a write replaces ENABLE, FORCE
//!         line up if ENABLE and (ACTIVE or FORCE) in either register
//!
//! slot 31   the controller
//!   slot x 400  configuration: vendor 0, device 4, revision 8; zero if the slot is empty
//!               slot 0 has 1, 4, 1; slot 31 has 1, 10, 1
//!   7c00 + 200  RAMSZ  bytes of RAM                                   write ignored
//!          204  IRQS   bit s: the line of slot s is up                write ignored
//!          208  PWR    0                                              any word switches off
//!          20c  IRQE   lines let through; ffffffff at boot            replaced
//!          210  CPUS   bit c: processor c is there                    write ignored
//!          214  CPUE   bit c: processor c was started                 1 starts, 0 does nothing
//!          218  SELF   the bit of the processor that reads            write ignored
//!   8000 + processor x 400
//!          000  CIRQE  lines let through to it; ffffffff at boot for 0, else 0   replaced
//!          004  CIPI   1 or 0                                         not zero raises, 0 drops
//!          300  CRAM   64 words, zero at boot                         replaced
//!
//! lines of processor c   00000400 if IRQS & IRQE & CIRQE(c) isn't zero
//!                        00000800 if CIPI(c) is 1
//! a started processor    pc = CRAM word 0, $4 = CRAM word 1, $29 = the end of its CRAM in kseg1
//! ```
//!
//! Every other word of the slots reads 0 and ignores writes. An address that isn't that of an
//! aligned word of the slots is a bus fault. Source: the System/161 manual, LAMEbus and MIPS-161
//! pages, for what the parts are; places, bits, identities and what each word does at boot and
//! when it is written are this project's own.
#![tactic(auto)]

mod board;
mod console;
mod irq;
mod lines;
mod place;
mod register;

pub use board::{Board, BoardParts, BusFault, PlaceParts, StartWords};
pub use console::{Console, ConsoleParts, ConsoleRegister, DoneError, KeyFull};
pub use irq::IrqBits;
pub use register::BoardWord;
