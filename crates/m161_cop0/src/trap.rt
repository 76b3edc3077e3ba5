//! What a trap is entered with.

use crate::exception::Exception;

/// A trap, with what a Step knows of it.
#[derive(Clone, Copy, Debug, PartialEq, Eq)]
pub struct Trap {
    /// The exception.
    pub code: Exception,
    /// The coprocessor, 0 to 3 (the two low bits); used only for `CoprocessorUnusable`.
    pub unit: u8,
    /// No row matched an address in kuseg; used only for `TlbLoad` and `TlbStore`.
    pub user_miss: bool,
    /// The address of the instruction.
    pub pc: u32,
    /// The instruction is in a delay slot.
    pub slot: bool,
    /// The address that was to be fetched, loaded or stored; used only for `TlbModified`,
    /// `TlbLoad`, `TlbStore`, `AddressErrorLoad` and `AddressErrorStore`.
    pub address: u32,
}
