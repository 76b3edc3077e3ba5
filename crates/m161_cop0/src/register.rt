//! The registers by name.

ghost use Rattle.std.specs.Prelude.{◌≡◌, Some, IfSome};
ghost use Rattle.m161_cop0.specs.Registers.{all_registers, name_of_register, number_of_register, register_with};

use m161_isa::Reg;

/// A register of coprocessor 0.
#[derive(Clone, Copy, Debug, PartialEq, Eq)]
pub enum Register {
    /// Register 0: the row of `tlbr` and `tlbwi`, and what `tlbp` found.
    Index,
    /// Register 1: the row of `tlbwr`.
    Random,
    /// Register 2: the second word of a TLB row.
    EntryLo,
    /// Register 4: PTEBase, and the page of a failed translation.
    Context,
    /// Register 8: the address of a failed translation or of an error of addressing.
    BadVaddr,
    /// Register 9: rises by one with each Step.
    Count,
    /// Register 10: the first word of a TLB row; its identifier is that of translations.
    EntryHi,
    /// Register 11: the timer's value, or zero.
    Compare,
    /// Register 12.
    Status,
    /// Register 13.
    Cause,
    /// Register 14: the address to return to from a trap.
    Epc,
    /// Register 15: 000000a1.
    Prid,
}

/// The registers, in the order of their numbers.
pub static REGISTERS: [Register; 12] = [
    Register::Index,
    Register::Random,
    Register::EntryLo,
    Register::Context,
    Register::BadVaddr,
    Register::Count,
    Register::EntryHi,
    Register::Compare,
    Register::Status,
    Register::Cause,
    Register::Epc,
    Register::Prid,
];

/// The law of `REGISTERS`: it has all registers, each once, in the order of their numbers.
pub fn registers_in_order()
    ensures { REGISTERS ≡ all_registers }
{}

impl Register {
    /// Its number in `mfc0` and `mtc0`.
    pub fn number(self) -> Reg
        ensures value { result ≡ number_of_register self }
        ensures back { register_with result ≡ Some self }
    {
        Reg::new(match self {
            Register::Index => 0,
            Register::Random => 1,
            Register::EntryLo => 2,
            Register::Context => 4,
            Register::BadVaddr => 8,
            Register::Count => 9,
            Register::EntryHi => 10,
            Register::Compare => 11,
            Register::Status => 12,
            Register::Cause => 13,
            Register::Epc => 14,
            Register::Prid => 15,
        })
    }

    /// The register of a number; `None` if the number has no register.
    pub fn from_number(number: Reg) -> Option<Register>
        ensures value { result ≡ register_with number }
        ensures back { IfSome result (λ r. number_of_register r ≡ number) }
    {
        match number.number() {
            0 => Some(Register::Index),
            1 => Some(Register::Random),
            2 => Some(Register::EntryLo),
            4 => Some(Register::Context),
            8 => Some(Register::BadVaddr),
            9 => Some(Register::Count),
            10 => Some(Register::EntryHi),
            11 => Some(Register::Compare),
            12 => Some(Register::Status),
            13 => Some(Register::Cause),
            14 => Some(Register::Epc),
            15 => Some(Register::Prid),
            _ => None,
        }
    }

    /// Its name in a display.
    pub fn name(self) -> &'static str
        ensures { result.now ≡ name_of_register self }
    {
        match self {
            Register::Index => "index",
            Register::Random => "random",
            Register::EntryLo => "entrylo",
            Register::Context => "context",
            Register::BadVaddr => "badvaddr",
            Register::Count => "count",
            Register::EntryHi => "entryhi",
            Register::Compare => "compare",
            Register::Status => "status",
            Register::Cause => "cause",
            Register::Epc => "epc",
            Register::Prid => "prid",
        }
    }
}
