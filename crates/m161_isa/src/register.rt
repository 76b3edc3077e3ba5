//! The number of a register.

ghost use Rattle.std.specs.Prelude.{◌≡◌, ◌<◌};

use std::marker::Model;

/// A register's number, 0 to 31: of a general register, or of one of coprocessor 0.
#[derive(Clone, Copy, Debug, PartialEq, Eq)]
pub struct Reg {
    number: u32,
}

impl Model for Reg {
    ghost use Rattle.std.specs.Prelude.{ℕ, ◌<◌};

    ghost Value = { ℕ };

    ghost view = { λ r. r.number };

    ghost invariant = { λ r. r.number < 32 };

    ghost inverse = { λ n. record { number = n } };
}

impl Reg {
    /// The register of this number.
    #[inline(always)]
    pub const fn new(number: u8) -> Reg
        requires { number < 32 }
        ensures { result ≡ number }
    {
        Reg {
            number: number as u32,
        }
    }

    /// Its number.
    #[inline(always)]
    pub const fn number(self) -> u8
        ensures value { result ≡ self }
        ensures small { result < 32 }
    {
        self.number as u8
    }

    /// Its number, as a place in a table of registers.
    #[inline(always)]
    pub const fn index(self) -> usize
        ensures value { result ≡ self }
        ensures small { result < 32 }
    {
        self.number as usize
    }
}
