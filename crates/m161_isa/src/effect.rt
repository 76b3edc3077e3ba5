//! What the rows of the instruction table do.

/// The name of what a row does to its operands. One effect serves several rows, since a kind of
/// operand says how its value is read.
#[derive(Clone, Copy, Debug, PartialEq, Eq)]
pub enum Effect {
    /// Shifts left, filling with zeros.
    ShiftLeft,
    /// Shifts right, filling with zeros.
    ShiftRight,
    /// Shifts right, filling with the sign.
    ShiftRightArithmetic,
    /// Jumps to the target, after the delay slot.
    Jump,
    /// Jumps, and leaves the return address in the first operand.
    JumpAndLinkRegister,
    /// Traps with Sys.
    SystemCall,
    /// Traps with Bp.
    Breakpoint,
    /// Waits for earlier loads and stores; does nothing here, since each ends with its Step.
    Synchronize,
    /// Writes HI to a register.
    MoveFromHi,
    /// Writes a register to HI.
    MoveToHi,
    /// Writes LO to a register.
    MoveFromLo,
    /// Writes a register to LO.
    MoveToLo,
    /// Writes the signed product to HI and LO.
    Multiply,
    /// Writes the unsigned product to HI and LO.
    MultiplyUnsigned,
    /// Writes the signed quotient to LO and the remainder to HI.
    Divide,
    /// Writes the unsigned quotient to LO and the remainder to HI.
    DivideUnsigned,
    /// Writes the signed sum, or traps with Ov.
    Sum,
    /// Writes the sum modulo 2^32.
    SumModulo,
    /// Writes the signed difference, or traps with Ov.
    Difference,
    /// Writes the difference modulo 2^32.
    DifferenceModulo,
    /// Writes the bits that both have.
    And,
    /// Writes the bits that one or both have.
    Or,
    /// Writes the bits that exactly one has.
    Xor,
    /// Writes the bits that neither has.
    Nor,
    /// Writes 1 if less, signed, else 0.
    SetOnLess,
    /// Writes 1 if less, unsigned, else 0.
    SetOnLessUnsigned,
    /// Branches if below zero, signed.
    BranchOnLess,
    /// Branches if zero or above, signed.
    BranchOnGreaterOrEqual,
    /// Branches if below zero, signed; writes the return address to register 31, taken or not.
    BranchOnLessAndLink,
    /// Branches if zero or above, signed; writes the return address to register 31, taken or not.
    BranchOnGreaterOrEqualAndLink,
    /// Jumps, and leaves the return address in register 31.
    JumpAndLink,
    /// Branches if two registers are equal.
    BranchOnEqual,
    /// Branches if two registers differ.
    BranchOnNotEqual,
    /// Branches if zero or below, signed.
    BranchOnLessOrEqual,
    /// Branches if above zero, signed.
    BranchOnGreater,
    /// Writes the immediate to the upper half.
    LoadUpper,
    /// Loads a byte, sign-extended.
    LoadByte,
    /// Loads a half-word, sign-extended.
    LoadHalf,
    /// Loads the bytes from the address to its word's end into the high bytes.
    LoadWordLeft,
    /// Loads a word.
    LoadWord,
    /// Loads a byte, zero-extended.
    LoadByteUnsigned,
    /// Loads a half-word, zero-extended.
    LoadHalfUnsigned,
    /// Loads the bytes from the word's start to the address into the low bytes.
    LoadWordRight,
    /// Stores the low byte.
    StoreByte,
    /// Stores the low half.
    StoreHalf,
    /// Stores the high bytes, from the address to its word's end.
    StoreWordLeft,
    /// Stores the word.
    StoreWord,
    /// Stores the low bytes, from the word's start to the address.
    StoreWordRight,
    /// Loads a word, and links to it.
    LoadLinked,
    /// Stores the word if the link is live and names it; writes whether it was stored.
    StoreConditional,
    /// Writes a register of coprocessor 0 to a general one.
    MoveFromCop0,
    /// Writes a general register to one of coprocessor 0.
    MoveToCop0,
    /// Writes row Index to EntryHi and EntryLo.
    ReadTlb,
    /// Writes EntryHi and EntryLo to row Index.
    WriteTlbIndexed,
    /// Writes EntryHi and EntryLo to row Random.
    WriteTlbRandom,
    /// Writes the number of the row that matches EntryHi to Index.
    ProbeTlb,
    /// Restores the previous mode and interrupt enable.
    RestoreFromException,
    /// Waits until an interrupt is pending.
    WaitForInterrupt,
}
