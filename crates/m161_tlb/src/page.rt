//! The number of a page.

ghost use Rattle.std.specs.Prelude.{◌≡◌, ◌<◌, ◌^◌};

use std::marker::Model;

/// The number of a virtual page: bits 31 to 12 of an address.
#[derive(Clone, Copy, Debug, PartialEq, Eq)]
pub struct Page {
    number: u32,
}

impl Model for Page {
    ghost use Rattle.std.specs.Prelude.{ℕ, ◌<◌, ◌^◌};

    ghost Value = { ℕ };

    ghost view = { λ p. p.number };

    ghost invariant = { λ p. p.number < 2 ^ 20 };

    ghost inverse = { λ n. record { number = n } };
}

impl Page {
    /// The page of this number.
    pub const fn new(number: u32) -> Page
        requires { number < 2 ^ 20 }
        ensures { result ≡ number }
    {
        Page { number }
    }

    /// Its number.
    pub const fn number(self) -> u32
        ensures value { result ≡ self }
        ensures small { result < 2 ^ 20 }
    {
        self.number
    }
}
