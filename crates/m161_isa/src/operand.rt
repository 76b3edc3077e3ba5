//! The kinds of operands.

ghost use Rattle.std.specs.Prelude.{◌≡◌, ◌≤◌, ◌+◌, ◌<◌, ◌^◌};
ghost use Rattle.m161_isa.specs.Table.{position_of, width_of, number_of};

/// A kind of operand: where its field is in the word, and how it is read.
#[derive(Clone, Copy, Debug, PartialEq, Eq)]
pub enum Operand {
    /// The general register in bits 15..11.
    Rd,
    /// The general register in bits 25..21.
    Rs,
    /// The general register in bits 20..16.
    Rt,
    /// The shift amount in bits 10..6.
    Amount,
    /// The immediate in bits 15..0, sign-extended.
    Signed,
    /// The immediate in bits 15..0, zero-extended.
    Unsigned,
    /// The immediate in bits 15..0, sign-extended: an offset to the base that follows.
    Offset,
    /// The general register in bits 25..21, to whose content an offset is added.
    Base,
    /// A branch's target: the immediate in bits 15..0, in words, from the address after the branch.
    Branch,
    /// A jump's target: bits 25..0 are its bits 27..2.
    Jump,
    /// The register of coprocessor 0 in bits 15..11.
    Cop0,
}

impl Operand {
    /// The lowest bit of its field.
    pub const fn position(self) -> u32
        ensures { result ≡ position_of self }
    {
        match self {
            Operand::Signed | Operand::Unsigned | Operand::Offset => 0,
            Operand::Branch | Operand::Jump => 0,
            Operand::Amount => 6,
            Operand::Rd | Operand::Cop0 => 11,
            Operand::Rt => 16,
            Operand::Rs | Operand::Base => 21,
        }
    }

    /// The width of its field, in bits.
    pub const fn width(self) -> u32
        ensures value { result ≡ width_of self }
        ensures within { position_of self + result ≤ 32 }
    {
        match self {
            Operand::Rd | Operand::Rs | Operand::Rt | Operand::Base | Operand::Cop0 => 5,
            Operand::Amount => 5,
            Operand::Signed | Operand::Unsigned | Operand::Offset | Operand::Branch => 16,
            Operand::Jump => 26,
        }
    }

    /// The number in its field.
    pub const fn number(self, word: u32) -> u32
        ensures value { result ≡ number_of word self }
        ensures small { result < 2 ^ width_of self }
    {
        (word >> self.position()) % (1 << self.width())
    }
}
