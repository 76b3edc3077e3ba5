//! The machine: processors, memory, board and links, and the log of its events.
//!
//! ```text
//! event    one whole Step of one processor, a typed byte, or the end of a console transfer
//! next     the result of an event: its outcome and the state after it, or the first refusal
//! leads    next along a list of entries, from one state to another
//! history  what a machine is: what it was booted from, the state at its log's base, its log, and
//!          the state that the log leads to from there
//!
//! refusals, in order   1 no such processor   2 off   8 worn   4 256 typed bytes wait
//!                      5 the console isn't sending   6 no memory, only of `done`
//! limits               RAM 4,096 to 16,777,216 bytes in pages of 4,096; 1 to 32 processors;
//!                      a log of 1 to 16,777,216 entries
//! ```
//!
//! A strict machine, `Conf.strict`, is switched off by the instruction that would write a TLB row that
//! overlaps another row of its processor; the row stays as it was, and the outcome names both.
//!
//! A refused event changes nothing and isn't logged. The log is a window: it keeps the last entries
//! for which there is room, and the event of an entry that is dropped is made on the base. Its room
//! is reserved at boot, so a Step and a typed byte do not allocate. Events, the order of refusals
//! and the limits are this project's own.
#![tactic(auto)]

mod conf;
mod event;
mod events;
mod fetched;
mod laws;
mod machine;
mod packed;
mod start;
mod state;
mod step;
mod window;

pub use conf::{BootError, Conf};
pub use event::{Conflict, Entry, Event, Refusal};
pub use events::{Events, Runs};
pub use fetched::fetches_none;
pub use laws::stores_agree;
pub use m161_bus::{BoardParts, BoardWord, Console, ConsoleParts, IrqBits, PlaceParts};
pub use m161_cop0::{CauseParts, Cop0Parts, Exception, Register};
pub use m161_cpu::{Outcome, ProcessorParts, ProcessorState, RowNumber, Uses, Via};
pub use m161_elf::LoadError;
pub use m161_isa::{LinkUnit, Reg};
pub use m161_tlb::{Frame, Identifier, Page, Row, Tlb};
pub use machine::Machine;
pub use packed::{PackedEntry, plan_all};
pub use start::Start;
pub use state::{Core, worn};
