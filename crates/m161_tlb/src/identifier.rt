//! The number of an address space.

ghost use Rattle.std.specs.Prelude.{◌≡◌, ◌<◌, ◌^◌};

use std::marker::Model;

/// The number of an address space, 0 to 63, which tells the pages of one process from another's.
#[derive(Clone, Copy, Debug, PartialEq, Eq)]
pub struct Identifier {
    number: u8,
}

impl Model for Identifier {
    ghost use Rattle.std.specs.Prelude.{ℕ, ◌<◌, ◌^◌};

    ghost Value = { ℕ };

    ghost view = { λ p. p.number };

    ghost invariant = { λ p. p.number < 2 ^ 6 };

    ghost inverse = { λ n. record { number = n } };
}

impl Identifier {
    /// The address space of this number.
    pub const fn new(number: u8) -> Identifier
        requires { number < 2 ^ 6 }
        ensures { result ≡ number }
    {
        Identifier { number }
    }

    /// Its number.
    pub const fn number(self) -> u8
        ensures value { result ≡ self }
        ensures small { result < 2 ^ 6 }
    {
        self.number
    }
}
