//! What may be wrong with an event, and why one can't be looked at.

use m161_alike::Reads;
use m161_machine::Conflict;

/// What is wrong with an event. Of the kinds that hold the first one is the verdict.
#[derive(Clone, Copy, Debug, PartialEq, Eq)]
pub enum EventVerdict {
    /// The Step used a watched page through an old row of the TLB after its shootdown.
    Stale {
        /// The processor.
        processor: u32,
        /// The virtual address.
        address: u32,
        /// The number of the row.
        row: u8,
    },
    /// The Step fetched a word at an address that is never to be reached.
    Reached {
        /// The processor.
        processor: u32,
        /// The virtual address.
        address: u32,
    },
    /// The `tlbwi` or `tlbwr` of a strict machine would have written a row that overlaps another one.
    Conflict(Conflict),
    /// Nothing is left to do, and the console hasn't sent what is asked for.
    Stuck,
    /// The machine is off, and the console hasn't sent what is asked for.
    Output,
}

/// A Step reads time that isn't known.
#[derive(Clone, Copy, Debug, PartialEq, Eq)]
pub struct Unknown {
    /// The processor.
    pub processor: u32,
    /// What it reads.
    pub reads: Reads,
}
