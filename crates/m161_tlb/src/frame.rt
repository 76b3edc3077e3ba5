//! The number of a frame.

ghost use Rattle.std.specs.Prelude.{◌≡◌, ◌<◌, ◌^◌};

use std::marker::Model;

/// The number of a physical page: bits 31 to 12 of a physical address.
#[derive(Clone, Copy, Debug, PartialEq, Eq)]
pub struct Frame {
    number: u32,
}

impl Model for Frame {
    ghost use Rattle.std.specs.Prelude.{ℕ, ◌<◌, ◌^◌};

    ghost Value = { ℕ };

    ghost view = { λ p. p.number };

    ghost invariant = { λ p. p.number < 2 ^ 20 };

    ghost inverse = { λ n. record { number = n } };
}

impl Frame {
    /// The frame of this number.
    pub const fn new(number: u32) -> Frame
        requires { number < 2 ^ 20 }
        ensures { result ≡ number }
    {
        Frame { number }
    }

    /// Its number.
    pub const fn number(self) -> u32
        ensures value { result ≡ self }
        ensures small { result < 2 ^ 20 }
    {
        self.number
    }
}
