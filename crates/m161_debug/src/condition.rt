//! What a run waits for.

/// What a run over events may wait for: the first event after which it holds stops the run.
#[derive(Clone, Copy, Debug, PartialEq, Eq)]
pub enum Condition {
    /// The word of RAM at this address isn't what it was when the run began. The address is a
    /// multiple of 4, physical or in kseg0 or kseg1.
    Memory(u32),
    /// The event is a Step of this processor, and it trapped.
    Trap(u32),
    /// This processor's general register of this number, 0 to 31, isn't what it was when the run
    /// began.
    Register(u32, u32),
    /// This processor's row of the TLB of this number, 0 to 63, isn't what it was when the run
    /// began.
    Row(u32, u32),
    /// The console has sent more bytes than when the run began.
    Output,
}
