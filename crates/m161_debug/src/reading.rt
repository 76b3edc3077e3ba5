//! Reading the parts of a command.

ghost use Rattle.std.specs.Prelude.{◌<◌, ◌≤◌, ◌≡◌, ◌↔◌, ℕ, IfNone, IfSome, None, length, true, false, get_or};
ghost use Rattle.std.specs.Str.Parse.{AllDigits};
ghost use Rattle.m161_text.specs.Parts.{hex_text};
ghost use Rattle.m161_debug.specs.Commands.{AreNumbers, AreParts, IsAddress, IsByteText, IsCount, IsBehind, IsDecimal, IsHex, IsNamed, IsNumber, IsPlace};
ghost use Rattle.m161_debug.specs.helpers.Reading.{CutsLast, Finds};

use m161_symbols::Symbols;
use m161_text::{cut_at_space, parse_byte, parse_decimal, parse_hex};

/// A number below 2^32.
pub(crate) fn number(text: &str) -> Option<u32>
    ensures { Finds IsNumber text.now result }
{
    parse_decimal(text)
}

/// A byte.
pub(crate) fn byte(text: &str) -> Option<u8>
    ensures { Finds IsByteText text.now result }
{
    parse_byte(text)
}

// The digits of an address, without the 0x before them.
fn digits_of(text: &str) -> &str
    ensures { (k n : ℕ) → IsHex k n text.now ↔ (result.now ≡ hex_text k n) }
{
    match text.strip_prefix("0x") {
        Some(digits) => digits,
        None => text,
    }
}

// Whether a text has one to eight bytes.
fn is_short(text: &str) -> bool
    ensures yes { result ≡ true → (1 ≤ length text.now) × (length text.now ≤ 8) }
    ensures no { result ≡ false → 1 ≤ length text.now → length text.now ≤ 8 → ⊥ }
{
    1 <= text.len() && text.len() <= 8
}

// An address.
fn address(text: &str) -> Option<u32>
    ensures { Finds IsAddress text.now result }
{
    let digits = digits_of(text);
    if is_short(digits) {
        parse_hex(digits.as_bytes())
    } else {
        None
    }
}

// The parts of a text before and after its last `+`.
fn cut_at_last_plus(text: &str) -> Option<(&str, &str)>
    ensures { CutsLast 43 text.now result }
{
    text.rsplit_once('+')
}

// An address so many bytes behind a symbol.
fn behind(symbols: &Symbols, text: &str) -> Option<u32>
    ensures { Finds (IsBehind symbols.now) text.now result }
{
    let (name, distance) = cut_at_last_plus(text)?;
    let value = symbols.value(name)?;
    let bytes = address(distance)?;
    value.checked_add(bytes)
}

// The address of a symbol, or one behind it.
fn named(symbols: &Symbols, text: &str) -> Option<u32>
    ensures { Finds (IsNamed symbols.now) text.now result }
{
    match symbols.value(text) {
        Some(value) => Some(value),
        None => behind(symbols, text),
    }
}

// The address that a name stands for.
fn name(symbols: &Symbols, text: &str) -> Option<u32>
    requires { Finds IsAddress text.now None }
    ensures { Finds (IsPlace symbols.now) text.now result }
{
    match cut_at_space(text) {
        Some(_) => None,
        None => named(symbols, text),
    }
}

/// An address, or a name for one.
pub(crate) fn place(symbols: &Symbols, text: &str) -> Option<u32>
    ensures { Finds (IsPlace symbols.now) text.now result }
{
    match address(text) {
        Some(at) => Some(at),
        None => name(symbols, text),
    }
}

/// The address that a word of a command stands for: 1 to 8 lower case hexadecimal digits, behind 0x or
/// not; or else a symbol's name; or a name, `+`, and a distance in bytes that is written as an address.
pub fn address_of_word(symbols: &Symbols, word: &str) -> Option<u32>
    ensures some { IfSome result (λ address. IsPlace symbols.now address word.now) }
    ensures none { IfNone result ((address : ℕ) → IsPlace symbols.now address word.now → ⊥) }
{
    place(symbols, word)
}

/// Two numbers.
pub(crate) fn numbers(text: &str) -> Option<(u32, u32)>
    ensures { Finds AreNumbers text.now result }
{
    let (a, b) = cut_at_space(text)?;
    let a = number(a)?;
    let b = number(b)?;
    Some((a, b))
}

/// A processor and an address, or a name for one.
pub(crate) fn processor_and_address(symbols: &Symbols, text: &str) -> Option<(u32, u32)>
    ensures { Finds (AreParts IsNumber (IsPlace symbols.now)) text.now result }
{
    let (p, at) = cut_at_space(text)?;
    let p = number(p)?;
    let at = place(symbols, at)?;
    Some((p, at))
}

/// An address, or a name for one, and how many words.
pub(crate) fn address_and_count(symbols: &Symbols, text: &str) -> Option<(u32, u32)>
    ensures { Finds (AreParts (IsPlace symbols.now) IsNumber) text.now result }
{
    let (at, n) = cut_at_space(text)?;
    let at = place(symbols, at)?;
    let n = number(n)?;
    Some((at, n))
}

/// An address, or a name for one, how many words, and a processor.
pub(crate) fn address_count_and_processor(
    symbols: &Symbols,
    text: &str,
) -> Option<(u32, (u32, u32))>
    ensures { Finds (AreParts (IsPlace symbols.now) AreNumbers) text.now result }
{
    let (at, rest) = cut_at_space(text)?;
    let at = place(symbols, at)?;
    let rest = numbers(rest)?;
    Some((at, rest))
}

// Whether bytes are digits.
fn are_digits(bytes: &[u8]) -> bool
    ensures yes { result ≡ true → AllDigits 10 bytes.now }
    ensures no { result ≡ false → AllDigits 10 bytes.now → ⊥ }
{
    for byte in bytes {
        if *byte < b'0' || *byte > b'9' {
            return false;
        }
    }
    true
}

// Whether a text begins with a zero and has more digits.
fn has_leading_zero(text: &str) -> bool
    ensures yes { result ≡ true → (1 < length text.now) × (get_or text.now 0 0 ≡ 48) }
    ensures no { result ≡ false → get_or text.now 0 0 ≡ 48 → length text.now ≤ 1 }
{
    text.len() > 1 && text.starts_with('0')
}

// Whether a text is a decimal number without leading zeros, of any size.
fn is_decimal(text: &str) -> bool
    ensures yes { result ≡ true → IsDecimal text.now }
    ensures no { result ≡ false → IsDecimal text.now → ⊥ }
{
    if text.is_empty() {
        return false;
    }
    if has_leading_zero(text) {
        return false;
    }
    are_digits(text.as_bytes())
}

/// How many events a decimal number asks for; a number above 2^64 - 1 is read as 2^64 - 1.
pub(crate) fn count(text: &str) -> Option<u64>
    ensures { Finds IsCount text.now result }
{
    if !is_decimal(text) {
        return None;
    }
    match text.parse::<u64>() {
        Ok(n) => Some(n),
        Err(_) => Some(u64::MAX),
    }
}
