//! The unit of a link.

/// What `ll` links a processor to. A store of any processor there ends the link, and `sc` succeeds
/// anywhere there. MIPS II leaves the size to the machine; these two are this project's own.
#[derive(Clone, Copy, Debug, PartialEq, Eq)]
pub enum LinkUnit {
    /// The word that has the address.
    Word,
    /// The aligned 16 bytes that have the address, as where caches keep the links by their lines.
    Line,
}
