//! The number of a row of the TLB.

ghost use Rattle.std.specs.Prelude.{◌≡◌, ◌<◌};

use std::marker::Model;

/// The number of a row of the TLB, 0 to 63.
#[derive(Clone, Copy, Debug, PartialEq, Eq)]
pub struct RowNumber {
    number: u8,
}

impl Model for RowNumber {
    ghost use Rattle.std.specs.Prelude.{ℕ, ◌<◌};

    ghost Value = { ℕ };

    ghost view = { λ p. p.number };

    ghost invariant = { λ p. p.number < 64 };

    ghost inverse = { λ n. record { number = n } };
}

impl RowNumber {
    /// The row of this number.
    pub const fn new(number: u8) -> RowNumber
        requires { number < 64 }
        ensures { result ≡ number }
    {
        RowNumber { number }
    }

    /// Its number.
    pub const fn number(self) -> u8
        ensures value { result ≡ self }
        ensures small { result < 64 }
    {
        self.number
    }
}
