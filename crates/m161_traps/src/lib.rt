//! The traps of a run, counted by processor and code, and notes on traps that nobody handles.
//!
//! ```text
//! trap    a Step whose outcome is Trapped: where it stands among the events, its processor, code and
//!         vector, whether the word there is 0, and EPC and BadVAddr right after it
//! line    the first trap of a processor and a code, and how many there are; in order of the first
//! text    traps P CODE NAME N first K PC ADDRESS
//!         NAME of codes 0 to 12: Int Mod TLBL TLBS AdEL AdES IBE DBE Sys Bp RI CpU Ov
//!         ADDRESS is - but for codes 1 to 5, the traps that write BadVAddr
//!
//! note    on the first trap behind which the word at its vector is in RAM and 0, and no byte of it is
//!         one that a segment has in the file:
//!         s161: note trap K P CODE NAME VECTOR (the image has nothing there)
//! note    on a processor whose last N Steps trapped, at least three:
//!         s161: note trapping N P CODE NAME (its last N Steps trapped)
//! ```
//!
//! The codes and their names are those of Kane, MIPS RISC Architecture, "Exception processing"; the
//! line and the notes are this project's own.
#![tactic(auto)]

mod text;
mod trapping;
mod traps;
mod unhandled;
mod watch;

pub use m161_cop0::Exception;
pub use m161_elf::Span;
pub use m161_machine::Event;
pub use text::{show_traps, show_unhandled};
pub use trapping::Trapping;
pub use traps::{Trap, TrapLine, find_traps};
pub use unhandled::{is_in_file, look};
pub use watch::Watch;
