//! Two consoles: one keeps its waiting bytes in a vector, the other in a ring.
//!
//! ```text
//! waiting  up to 256 bytes, in room made by `fresh`; the oldest is removed from the front
//! port     all else:
//!   latch    the byte that is being sent
//!   output   grows by a byte at each `done`, which allocates only if there is no room for the
//!            byte; `reserve` makes room for more of them. Nothing else allocates after `fresh`
//! ```
//!
//! A refused `done` keeps the byte in the latch, so that it can be sent later. What the registers
//! and bits mean is in `m161_bus`.
#![tactic(auto)]

mod plain;
mod port;
mod ring;

pub use plain::PlainConsole;
pub use ring::RingConsole;
