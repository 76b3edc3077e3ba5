//! How registers and addresses are named.

ghost use Rattle.std.specs.Prelude.{◌≡◌};
ghost use Rattle.m161_dis.specs.Style.{plain};

use m161_symbols::Symbols;
use std::alloc::Global;

/// How the general registers stand in a text. Those of coprocessor 0 have their numbers either way.
#[derive(Clone, Copy, Debug, PartialEq, Eq)]
pub enum Naming {
    /// By their numbers: `$8`.
    Numbers,
    /// By the assembler's names: `$t0`.
    Names,
}

/// How a text shows registers and addresses.
#[derive(Drop)]
pub struct Style {
    /// How the general registers stand in it.
    pub registers: Naming,
    /// The symbols of which the nearest gives an address its place, which stands behind it.
    pub symbols: Symbols,
}

impl Style {
    /// Registers by their numbers, and no symbols.
    pub fn plain(alloc: Global) -> Style
        ensures { result ≡ plain }
    {
        Style {
            registers: Naming::Numbers,
            symbols: Symbols::none(alloc),
        }
    }
}
