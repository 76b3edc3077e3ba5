//! Numbers in texts.

ghost use Rattle.std.specs.Prelude.{◌≡◌, ◌+◌, ◌^◌, ◌<◌, ◌≤◌, ◌++◌, IsOk, OnOk, length, decimal, string_bytes, string_capacity, string_len, Some};
ghost use Rattle.m161_text.specs.Parts.{Reads, IsByte, IsPage, IsWord, hex_digit, hex_text};

use std::alloc::AllocError;
use std::fmt;

/// A byte as two lower case hexadecimal digits.
#[derive(Drop)]
pub struct Byte(pub u8);

impl fmt::Display for Byte {
    ghost output = { λ byte. Some (hex_text 2 byte.0) };

    fn fmt<W: fmt::Write>(&self, f: &mut fmt::Formatter<W>) -> fmt::Result {
        let byte = self.0;
        write!(f, "{byte:02x}")
    }
}

/// A word as eight lower case hexadecimal digits.
#[derive(Drop)]
pub struct Word(pub u32);

impl fmt::Display for Word {
    ghost output = { λ word. Some (hex_text 8 word.0) };

    fn fmt<W: fmt::Write>(&self, f: &mut fmt::Formatter<W>) -> fmt::Result {
        let word = self.0;
        let a = Byte((word / 0x100_0000) as u8);
        let b = Byte((word / 0x1_0000 % 0x100) as u8);
        let c = Byte((word / 0x100 % 0x100) as u8);
        let d = Byte((word % 0x100) as u8);
        write!(f, "{a}{b}{c}{d}")
    }
}

// A hexadecimal digit, in lower case.
fn glyph(digit: u32) -> char
    requires { digit < 16 }
    ensures value { result ≡ hex_digit digit }
    ensures ascii { result < 128 }
{
    if digit < 10 {
        (b'0' + digit as u8) as char
    } else {
        (b'a' + (digit as u8 - 10)) as char
    }
}

/// Appends the last hexadecimal digits of a number, in lower case.
///
/// # Errors
/// Memory was refused; never if the text has room for them.
pub fn push_hex(text: &mut String, digits: u32, number: u32) -> Result<(), AllocError>
    ensures bytes { OnOk result (string_bytes text.new
        ≡ string_bytes text.old ++ hex_text digits number) }
    ensures len { OnOk result (string_len text.new ≡ string_len text.old + digits) }
    ensures capacity { string_capacity text.old ≤ string_capacity text.new }
    ensures room { string_len text.old + digits ≤ string_capacity text.old → IsOk result }
{
    if digits == 0 {
        return Ok(());
    }
    push_hex(text, digits - 1, number / 16)?;
    text.push(glyph(number % 16))
}

/// The number of a decimal text below 2^32 without leading zeros; `None` of any other text, also of
/// one with a sign.
pub fn parse_decimal(text: &str) -> Option<u32>
    ensures { Reads IsWord decimal text.now result }
{
    if text.starts_with('+') {
        return None;
    }
    if text.len() > 1 && text.starts_with('0') {
        return None;
    }
    text.parse::<u32>().ok()
}

// The value of a lower case hexadecimal digit.
fn parse_digit(byte: u8) -> Option<u8>
    ensures { Reads (λ n. n < 16) hex_digit byte result }
{
    match byte {
        b'0'..=b'9' => Some(byte - b'0'),
        b'a'..=b'f' => Some(byte - b'a' + 10),
        _ => None,
    }
}

/// The number of up to eight lower case hexadecimal digits, 0 without any; `None` of any other bytes.
pub fn parse_hex(text: &[u8]) -> Option<u32>
    requires { length text.now ≤ 8 }
    ensures { Reads (λ n. n < 16 ^ length text.now) (hex_text (length text.now)) text.now result }
{
    let mut number = 0u32;
    for byte in text {
        let digit = parse_digit(*byte)?;
        number = number * 16 + u32::from(digit);
    }
    Some(number)
}

/// The word of eight lower case hexadecimal digits; `None` of any other text.
pub fn parse_word(text: &str) -> Option<u32>
    ensures { Reads IsWord (hex_text 8) text.now result }
{
    if text.len() != 8 {
        return None;
    }
    parse_hex(text.as_bytes())
}

/// The byte of two lower case hexadecimal digits; `None` of any other text.
pub fn parse_byte(text: &str) -> Option<u8>
    ensures { Reads IsByte (hex_text 2) text.now result }
{
    if text.len() != 2 {
        return None;
    }
    u8::try_from(parse_hex(text.as_bytes())?).ok()
}

/// The page of five lower case hexadecimal digits; `None` of any other text.
pub fn parse_page(text: &str) -> Option<u32>
    ensures { Reads IsPage (hex_text 5) text.now result }
{
    if text.len() != 5 {
        return None;
    }
    parse_hex(text.as_bytes())
}
