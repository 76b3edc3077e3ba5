//! The fields of a word. Their places are written out, so that a Step looks none up in a table.

ghost use Rattle.std.specs.Prelude.{◌≡◌, ◌≤◌, ◌<◌, ◌^◌};
ghost use Rattle.m161_isa.specs.Bits.{bits_of};
ghost use Rattle.m161_isa.specs.Instr.{rs_of, rt_of, rd_of, amount_of, immediate_of, target_of};

use m161_isa::{Amount, Immediate, Reg, Target};

/// The `width` bits of the word from bit `at` on.
#[inline(always)]
pub(crate) fn narrow(word: u32, at: u32, width: u32) -> u8
    requires place { at < 32 }
    requires size { width ≤ 8 }
    ensures { result ≡ bits_of word at width }
{
    ((word >> at) % (1 << width)) as u8
}

/// The register in bits 25 to 21.
#[inline(always)]
pub(crate) fn rs(word: u32) -> Reg
    ensures { result ≡ rs_of word }
{
    Reg::new(narrow(word, 21, 5))
}

/// The register in bits 20 to 16.
#[inline(always)]
pub(crate) fn rt(word: u32) -> Reg
    ensures { result ≡ rt_of word }
{
    Reg::new(narrow(word, 16, 5))
}

/// The register in bits 15 to 11.
#[inline(always)]
pub(crate) fn rd(word: u32) -> Reg
    ensures { result ≡ rd_of word }
{
    Reg::new(narrow(word, 11, 5))
}

/// The shift amount, bits 10 to 6.
#[inline(always)]
pub(crate) fn amount(word: u32) -> Amount
    ensures { result ≡ amount_of word }
{
    Amount::new(narrow(word, 6, 5))
}

/// The low half of the word.
#[inline(always)]
pub(crate) fn immediate(word: u32) -> Immediate
    ensures { result ≡ immediate_of word }
{
    Immediate::new((word % (1 << 16)) as u16)
}

/// The low 26 bits, a jump's target in words.
#[inline(always)]
pub(crate) fn target(word: u32) -> Target
    ensures { result ≡ target_of word }
{
    Target::new(word % (1 << 26))
}
