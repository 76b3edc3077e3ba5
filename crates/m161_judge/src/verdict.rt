//! Verdicts.

ghost use Rattle.std.specs.Prelude.{◌≡◌};

use m161_machine::Conflict;

/// How a run went wrong. Of the kinds that hold the first one is the verdict.
#[derive(Clone, Copy, Debug, PartialEq, Eq)]
pub enum Verdict {
    /// A watched page was used through an old row of the TLB after its shootdown.
    Stale {
        /// The event's place in the list, from 0.
        place: usize,
        /// The processor.
        processor: u32,
        /// The virtual address.
        address: u32,
        /// The number of the row.
        row: u8,
    },
    /// A Step fetched a word at an address that is never to be reached.
    Reached {
        /// The event's place in the list, from 0.
        place: usize,
        /// The processor.
        processor: u32,
        /// The virtual address.
        address: u32,
    },
    /// A `tlbwi` or `tlbwr` of a strict machine would have written a row that overlaps another one.
    Conflict(Conflict),
    /// No policy with the keys that were left had an event to choose, and the console hadn't sent
    /// what is asked for.
    Stuck,
    /// The machine is off, and the console hasn't sent what is asked for.
    Output,
    /// There are no more events, the machine isn't off, and was never stuck.
    End,
}

/// A verdict, and how many of the events it needs: cut behind them, the list has it too.
#[derive(Clone, Copy, Debug, PartialEq, Eq)]
pub struct Judged {
    /// The verdict.
    pub verdict: Verdict,
    /// How many of the events.
    pub events: usize,
}
