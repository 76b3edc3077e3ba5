//! The parts of Cause.

/// The parts of Cause, but for the board's lines, which aren't kept in a processor.
#[derive(Clone, Copy, Debug, PartialEq, Eq)]
pub struct CauseParts {
    /// BD: the instruction that trapped last was in a delay slot.
    pub branch_delay: bool,
    /// CE: the coprocessor that wasn't usable, 0 to 3.
    pub unit: u8,
    /// ExcCode of the last trap.
    pub code: u8,
    /// The timer's bit of IP.
    pub timer: bool,
    /// Software's two bits of IP, 0 to 3.
    pub software: u8,
}
