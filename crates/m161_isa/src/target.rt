//! A jump target.

ghost use Rattle.std.specs.Prelude.{◌≡◌, ◌<◌, ◌^◌};

use std::marker::Model;

/// The target field of a jump: bits 27..2 of the address that it jumps to.
#[derive(Clone, Copy, Debug, PartialEq, Eq)]
pub struct Target {
    field: u32,
}

impl Model for Target {
    ghost use Rattle.std.specs.Prelude.{ℕ, ◌<◌, ◌^◌};

    ghost Value = { ℕ };

    ghost view = { λ r. r.field };

    ghost invariant = { λ r. r.field < 2 ^ 26 };

    ghost inverse = { λ n. record { field = n } };
}

impl Target {
    /// The target of this field.
    #[inline(always)]
    pub const fn new(field: u32) -> Target
        requires { field < 2 ^ 26 }
        ensures { result ≡ field }
    {
        Target { field }
    }

    /// The field, below 2^26.
    #[inline(always)]
    pub const fn field(self) -> u32
        ensures value { result ≡ self }
        ensures small { result < 2 ^ 26 }
    {
        self.field
    }
}
