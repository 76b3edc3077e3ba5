//! Parts appended to a text that has room for them, so that this can't fail.

ghost use Rattle.std.specs.Prelude.{◌≡◌, ◌+◌, ◌<◌, ◌≤◌, ◌++◌, ◌∷◌, [], length, decimal, string_bytes, string_capacity, string_len};
ghost use Rattle.m161_text.specs.Parts.{hex_text};

use crate::digits::push_hex;

/// Appends a part where there is room for it.
pub fn put(text: &mut String, part: &str)
    requires { string_len text.old + length part.now ≤ string_capacity text.old }
    ensures bytes { string_bytes text.new ≡ string_bytes text.old ++ part.now }
    ensures len { string_len text.new ≡ string_len text.old + length part.now }
    ensures capacity { string_capacity text.old ≤ string_capacity text.new }
{
    let _done = text.push_str(part);
}

/// Appends the last hexadecimal digits of a number, in lower case, where there is room for them.
pub fn put_hex(text: &mut String, digits: u32, number: u32)
    requires { string_len text.old + digits ≤ string_capacity text.old }
    ensures bytes { string_bytes text.new ≡ string_bytes text.old ++ hex_text digits number }
    ensures len { string_len text.new ≡ string_len text.old + digits }
    ensures capacity { string_capacity text.old ≤ string_capacity text.new }
{
    let _done = push_hex(text, digits, number);
}

// Appends an ASCII character.
fn put_glyph(text: &mut String, glyph: u8)
    requires room { string_len text.old < string_capacity text.old }
    requires ascii { glyph < 128 }
    ensures bytes { string_bytes text.new ≡ string_bytes text.old ++ glyph ∷ [] }
    ensures len { string_len text.new ≡ string_len text.old + 1 }
    ensures capacity { string_capacity text.old ≤ string_capacity text.new }
{
    let _done = text.push(glyph as char);
}

// Appends a decimal number, digit by digit.
#[tactic(auto, using(crate::proofs::Decimal::one_long, crate::proofs::Decimal::more_long, crate::proofs::Decimal::only_digit, crate::proofs::Decimal::last_digit))]
fn put_digits(text: &mut String, number: u64)
    requires { string_len text.old + length (decimal number) ≤ string_capacity text.old }
    ensures bytes { string_bytes text.new ≡ string_bytes text.old ++ decimal number }
    ensures len { string_len text.new ≡ string_len text.old + length (decimal number) }
    ensures capacity { string_capacity text.old ≤ string_capacity text.new }
{
    if number < 10 {
        put_glyph(text, b'0' + number as u8);
    } else {
        put_digits(text, number / 10);
        put_glyph(text, b'0' + (number % 10) as u8);
    }
}

/// Appends a decimal number without leading zeros, where there is room for 20 digits.
#[tactic(auto, using(crate::proofs::Decimal::long_at_most))]
pub fn put_decimal(text: &mut String, number: u64)
    requires { string_len text.old + 20 ≤ string_capacity text.old }
    ensures bytes { string_bytes text.new ≡ string_bytes text.old ++ decimal number }
    ensures len { string_len text.new ≤ string_len text.old + 20 }
    ensures capacity { string_capacity text.old ≤ string_capacity text.new }
{
    put_digits(text, number);
}

/// The same of a number of 32 bits, where there is room for 10 digits.
#[tactic(auto, using(crate::proofs::Decimal::short_at_most))]
pub fn put_short_decimal(text: &mut String, number: u32)
    requires { string_len text.old + 10 ≤ string_capacity text.old }
    ensures bytes { string_bytes text.new ≡ string_bytes text.old ++ decimal number }
    ensures len { string_len text.new ≤ string_len text.old + 10 }
    ensures capacity { string_capacity text.old ≤ string_capacity text.new }
{
    put_digits(text, u64::from(number));
}
