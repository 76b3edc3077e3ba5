//! Comparisons.

ghost use Rattle.std.specs.Prelude.{◌≡◌};
ghost use Rattle.m161_alu.specs.Results.{is_taken, is_less};

use crate::arithmetic::Signedness;
use m161_isa::ZeroTest;

/// Whether a branch on this test of a register against zero is taken.
#[inline(always)]
pub fn branch_taken(test: ZeroTest, word: u32) -> bool
    ensures { result ≡ is_taken test word }
{
    let value = word.cast_signed();
    match test {
        ZeroTest::Less | ZeroTest::LessAndLink => value < 0,
        ZeroTest::GreaterOrEqual | ZeroTest::GreaterOrEqualAndLink => value >= 0,
        ZeroTest::LessOrEqual => value <= 0,
        ZeroTest::Greater => value > 0,
    }
}

/// Whether a word is less than another.
#[inline(always)]
pub fn set_on_less(signedness: Signedness, a: u32, b: u32) -> bool
    ensures { result ≡ is_less signedness a b }
{
    match signedness {
        Signedness::Signed => a.cast_signed() < b.cast_signed(),
        Signedness::Unsigned => a < b,
    }
}
