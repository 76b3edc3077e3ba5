//! One machine behind one lock, and a thread for each processor.
//!
//! ```text
//! book     what the lock protects: the machine, and two ledgers. Each of its calls makes one event
//!          at most, a Step of a seat's processor, a typed byte, or the end of a console transfer;
//!          or a burst, several Steps of one seat's processor
//! seat     a thread's right to the Steps of one processor; it counts them
//! run      a thread for each of 1 to 32 processors makes its quota of Steps, and takes the lock
//!          for each, or for each burst
//!
//! promised      the Steps that were made are one interleaving, and the machine is the replay of
//!               its log; each processor has made its quota, or the machine is off
//! not promised  the order between threads, their progress and fairness; which cause a run
//!               reports, once it has begun
//! ```
//!
//! The ledgers count across threads that don't see each other's data. One counts the Steps: the
//! seats' counts add up to the machine's. The other counts the seats that found the machine off.
//! All of this is this project's own.
#![tactic(auto)]

mod before;
mod book;
mod locked;
mod tally;
mod threaded;
mod worker;

pub use book::{Book, Burst, Seat};
pub use locked::{Locked, Miscount};
pub use m161_cause::Cause;
pub use m161_machine::{Machine, Outcome, Refusal};
pub use threaded::{Gate, Report, RunFault, run, run_bursts};
