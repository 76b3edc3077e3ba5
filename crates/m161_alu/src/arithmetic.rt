//! Sums, shifts, products and quotients.

ghost use Rattle.std.specs.Prelude.{◌≡◌, ◌+ℤ◌, ◌-ℤ◌};
ghost use Rattle.m161_alu.specs.Word.{signed, word_of_signed};
ghost use Rattle.m161_alu.specs.Results.{shifted_word, product, quotient};

use m161_isa::{Amount, ShiftOp};

/// How a product, a quotient or a comparison reads its words: in two's complement, or unsigned.
#[derive(Clone, Copy, Debug, PartialEq, Eq)]
pub enum Signedness {
    /// From 2^31 on a word's value is 2^32 less.
    Signed,
    /// A word is its own value.
    Unsigned,
}

/// What a product or a quotient leaves in HI and LO.
#[derive(Clone, Copy, Debug, PartialEq, Eq)]
pub struct HiLoPair {
    /// The upper word of a product, or a remainder.
    pub hi: u32,
    /// The lower word of a product, or a quotient.
    pub lo: u32,
}

/// The signed sum, or `None` if it isn't a signed word.
#[inline(always)]
pub fn add_checked(a: u32, b: u32) -> Option<u32>
    ensures { result ≡ word_of_signed (signed a +ℤ signed b) }
{
    let sum = a.cast_signed().checked_add(b.cast_signed())?;
    Some(sum.cast_unsigned())
}

/// The signed difference, or `None` if it isn't a signed word.
#[inline(always)]
pub fn sub_checked(a: u32, b: u32) -> Option<u32>
    ensures { result ≡ word_of_signed (signed a -ℤ signed b) }
{
    let difference = a.cast_signed().checked_sub(b.cast_signed())?;
    Some(difference.cast_unsigned())
}

/// A word shifted by an amount.
#[inline(always)]
pub fn shift(op: ShiftOp, word: u32, amount: Amount) -> u32
    ensures { result ≡ shifted_word op word amount }
{
    let bits = amount.bits();
    match op {
        ShiftOp::Left => word << bits,
        ShiftOp::Right => word >> bits,
        ShiftOp::RightArithmetic => (word.cast_signed() >> bits).cast_unsigned(),
    }
}

/// The upper and the lower word of a product.
#[inline(always)]
pub fn mult(signedness: Signedness, a: u32, b: u32) -> HiLoPair
    ensures { result ≡ product signedness a b }
{
    let product = match signedness {
        Signedness::Signed => {
            (i64::from(a.cast_signed()) * i64::from(b.cast_signed())).cast_unsigned()
        }
        Signedness::Unsigned => u64::from(a) * u64::from(b),
    };
    HiLoPair {
        hi: (product >> 32) as u32,
        lo: (product % (1 << 32)) as u32,
    }
}

/// The remainder, for HI, and the quotient, for LO. A division by zero gives LO ffffffff and the
/// dividend in HI; 80000000 by ffffffff signed gives LO 80000000 and HI 0.
#[inline(always)]
pub fn div(signedness: Signedness, a: u32, b: u32) -> HiLoPair
    ensures { result ≡ quotient signedness a b }
{
    if b == 0 {
        return HiLoPair {
            hi: a,
            lo: u32::MAX,
        };
    }
    match signedness {
        Signedness::Signed => {
            let dividend = a.cast_signed();
            let divisor = b.cast_signed();
            HiLoPair {
                hi: dividend.wrapping_rem(divisor).cast_unsigned(),
                lo: dividend.wrapping_div(divisor).cast_unsigned(),
            }
        }
        Signedness::Unsigned => HiLoPair {
            hi: a % b,
            lo: a / b,
        },
    }
}
