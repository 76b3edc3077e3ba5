//! Bytes and half-words as words.

ghost use Rattle.std.specs.Prelude.{◌≡◌};
ghost use Rattle.m161_alu.specs.Word.{sign_extended_byte, sign_extended_half};

/// A byte in two's complement, as a word.
#[inline(always)]
pub fn sign_extend_byte(byte: u8) -> u32
    ensures { result ≡ sign_extended_byte byte }
{
    i32::from(byte.cast_signed()).cast_unsigned()
}

/// A half-word in two's complement, as a word.
#[inline(always)]
pub fn sign_extend_half(half: u16) -> u32
    ensures { result ≡ sign_extended_half half }
{
    i32::from(half.cast_signed()).cast_unsigned()
}
