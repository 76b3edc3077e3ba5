//! An immediate operand.

ghost use Rattle.std.specs.Prelude.{◌≡◌};

use std::marker::Model;

/// The immediate field of a word: its lower half.
#[derive(Clone, Copy, Debug, PartialEq, Eq)]
pub struct Immediate {
    half: u32,
}

impl Model for Immediate {
    ghost use Rattle.std.specs.Prelude.{ℕ, ◌<◌, ◌^◌};

    ghost Value = { ℕ };

    ghost view = { λ r. r.half };

    ghost invariant = { λ r. r.half < 2 ^ 16 };

    ghost inverse = { λ n. record { half = n } };
}

impl Immediate {
    /// The immediate of this half-word.
    #[inline(always)]
    pub const fn new(half: u16) -> Immediate
        ensures { result ≡ half }
    {
        Immediate { half: half as u32 }
    }

    /// The half-word.
    #[inline(always)]
    pub const fn half(self) -> u16
        ensures { result ≡ self }
    {
        self.half as u16
    }
}
