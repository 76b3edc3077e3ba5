//! The addresses at which a file has bytes.

/// A segment's bytes in the file.
#[derive(Clone, Copy, Debug, PartialEq, Eq)]
pub struct Span {
    /// The address of the first, in kseg0 or kseg1.
    pub address: u32,
    /// Their number, which isn't 0.
    pub size: u32,
}
