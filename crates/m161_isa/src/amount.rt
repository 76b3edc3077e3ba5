//! A shift amount.

ghost use Rattle.std.specs.Prelude.{◌≡◌, ◌<◌};

use std::marker::Model;

/// A shift amount, 0 to 31 bits.
#[derive(Clone, Copy, Debug, PartialEq, Eq)]
pub struct Amount {
    bits: u32,
}

impl Model for Amount {
    ghost use Rattle.std.specs.Prelude.{ℕ, ◌<◌};

    ghost Value = { ℕ };

    ghost view = { λ r. r.bits };

    ghost invariant = { λ r. r.bits < 32 };

    ghost inverse = { λ n. record { bits = n } };
}

impl Amount {
    /// The amount of this many bits.
    #[inline(always)]
    pub const fn new(bits: u8) -> Amount
        requires { bits < 32 }
        ensures { result ≡ bits }
    {
        Amount { bits: bits as u32 }
    }

    /// Its number of bits.
    #[inline(always)]
    pub const fn bits(self) -> u8
        ensures value { result ≡ self }
        ensures small { result < 32 }
    {
        self.bits as u8
    }
}
