//! Why moves stop.

use m161_gdb::{Kind, Watch};

/// Why a move stops at a place.
#[derive(Clone, Copy, Debug, PartialEq, Eq)]
pub enum Reason {
    /// The interrupt flag is set.
    Interrupt,
    /// The mark is there.
    Mark,
    /// This processor was to make a Step, and made it, or goes back by it.
    Step(u32),
    /// The run ends there.
    End,
    /// The run begins there.
    Begin,
    /// The next event is a Step that fetches a word with a breakpoint.
    Break {
        /// The Step's processor.
        processor: u32,
        /// The address of the word.
        address: u32,
        /// The kind of the breakpoint.
        kind: Kind,
    },
    /// A Step touches the bytes of a watch: forwards the next event, backwards the one before.
    Touch {
        /// The Step's processor.
        processor: u32,
        /// The watch.
        watch: Watch,
    },
}
