//! The debugger: a machine with breakpoints, displays of its state, and a language of commands.
//!
//! ```text
//! breakpoint   a processor and an address; at most 64, in a fixed table
//! go           makes events in order, up to the first stop:
//!              Break(k)      event k is a Step at a breakpoint, and k isn't 0
//!              Refused(k, r) event k is refused
//!              Off(k)        event k switched the machine off
//!              Conflict(k)   event k switched a strict machine off by a conflict
//!              End(n)        all n events are made
//! until        the same, and also
//!              Until(k)      after event k, what the run waits for holds
//! jump         back to the state before an event, by a new boot and the log
//!
//! command                prints
//! b P ADDR               break P ADDR
//! d P ADDR               deleted, or none
//! s P     k HH     o     the log's line of the event, or: refused N NAME
//! g       g N            break K, refused K N NAME, off K, end N, or: conflict K P I J, where
//!                        row I of P was to be written, and would have overlapped row J
//! s P N                  the same, over 1 to 1,000,000 Steps of P; the remaining events stay
//! u m ADDR               the same as g, or: until K, after the first event after which the word of
//!                        RAM at ADDR has changed since the command
//! u t P                  .. after which P trapped
//! u r P N     u i P N    .. general register N, row N of the TLB of P has changed
//! u o                    .. the console has sent a byte
//! r P     c P     t P    registers, coprocessor 0, TLB
//! r P N                  rN and general register N, 0 to 31
//! a                      at K of N: the events accepted since boot, and these with the remaining ones
//! w                      for each started processor P STATE ADDR WORD TEXT, or P STATE ADDR -
//! m ADDR N    x ADDR N   1 to 1,024 words: memory, code
//! x ADDR N P             1 to 1,024 instructions as P would fetch them now
//! l N                    the last 1 to 1,024 entries of the log, or all if it has fewer
//! ```
//!
//! P, N and K are decimal, without leading zeros; ADDR is one to eight lower case hexadecimal digits,
//! and may have 0x before them; HH is two. One space separates the parts of a command, with no space
//! before or after them. Each printed line ends with a line feed, and an address in it has eight
//! digits. ADDR is physical or in kseg0 or kseg1 for `m`, which shows the physical one, and `u m`; in
//! kseg0 or kseg1 for `x ADDR N`; virtual for `x ADDR N P`. Where symbols are given, a name, or
//! `name+8`, may stand for an ADDR, and `<name+8>` stands behind an address of code. Only events and
//! `jump` change the machine. The commands and their texts are this project's own.
#![tactic(auto)]

mod batch;
mod breakpoints;
mod command;
mod condition;
mod jump;
mod laws;
mod limits;
mod log;
mod mark;
mod reading;
mod room;
mod session;
mod stop;

pub use breakpoints::BreakError;
pub use command::CommandError;
pub use condition::Condition;
pub use jump::JumpError;
pub use laws::{has_one_stop, tells_conflict};
pub use m161_machine::{Event, Machine, Outcome, Refusal};
pub use reading::address_of_word;
pub use session::Session;
pub use stop::StopReason;
