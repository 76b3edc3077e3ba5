//! The pieces of a line: each is written at once.

ghost use Rattle.std.specs.Prelude.{◌≡◌, ◌<◌, ◌≤◌, ◌∷◌, [], IfErr, IfOk, decimal, encode_utf8, encode_utf8_all, length, take};
ghost use Rattle.std.specs.Io.KnownBytes.{Appends};
ghost use Rattle.m161_text.specs.Parts.{hex_digit, hex_text};
ghost use Rattle.s161_base.specs.FaultLines.{is_marked, shown_byte, shown_name};
ghost use Rattle.s161_base.specs.Streams.{AppendsSome};
ghost use Rattle.s161_base.specs.helpers.Pieces.{Puts};

use crate::fault::Fault;
use crate::streams::send;
use std::io::Write;

/// Writes a text.
pub(crate) fn put<'a, E: Write>(text: &str, errors: &mut E) -> Result<(), Fault<'a>>
    ensures { Puts (E.contents errors.old) text.now result (E.contents errors.new) }
{
    send(errors, text.as_bytes())
}

// Writes a byte.
fn put_byte<'a, E: Write>(byte: u8, errors: &mut E) -> Result<(), Fault<'a>>
    ensures { Puts (E.contents errors.old) (byte ∷ []) result (E.contents errors.new) }
{
    send(errors, &[byte])
}

/// Writes a number, digit by digit.
pub(crate) fn put_number<'a, E: Write>(n: u64, errors: &mut E) -> Result<(), Fault<'a>>
    ensures { Puts (E.contents errors.old) (decimal n) result (E.contents errors.new) }
{
    if n < 10 {
        return put_byte(b'0' + n as u8, errors);
    }
    put_number(n / 10, errors)?;
    put_byte(b'0' + (n % 10) as u8, errors)
}

// A hexadecimal digit, in lower case.
fn hex_digit(digit: u8) -> u8
    requires { digit < 16 }
    ensures { result ≡ hex_digit digit }
{
    if digit < 10 {
        b'0' + digit
    } else {
        b'a' + (digit - 10)
    }
}

/// Writes a number's last hexadecimal digits, in lower case.
pub(crate) fn put_hex<'a, E: Write>(
    digits: u32,
    number: u32,
    errors: &mut E,
) -> Result<(), Fault<'a>>
    ensures { Puts (E.contents errors.old) (hex_text digits number) result (E.contents errors.new) }
{
    if digits == 0 {
        return Ok(());
    }
    put_hex(digits - 1, number / 16, errors)?;
    put_byte(hex_digit((number % 16) as u8), errors)
}

// Whether a byte is written by its number.
fn is_marked(byte: u8) -> bool
    ensures { result ≡ is_marked byte }
{
    byte < b' ' || byte == 0x7f || byte == b'(' || byte == b'\\'
}

// Writes a byte of a name.
fn put_shown<'a, E: Write>(byte: u8, errors: &mut E) -> Result<(), Fault<'a>>
    ensures { Puts (E.contents errors.old) (shown_byte byte) result (E.contents errors.new) }
{
    if is_marked(byte) {
        send(
            errors,
            &[b'\\', b'x', hex_digit(byte / 16), hex_digit(byte % 16)],
        )
    } else {
        put_byte(byte, errors)
    }
}

// How many of a name's first bytes are written as they are.
fn plain_front(name: &[u8]) -> usize
    ensures within { result ≤ length name.now }
    ensures plain { shown_name (take result name.now) ≡ take result name.now }
{
    for (i, byte) in name.iter().enumerate() {
        if is_marked(*byte) {
            return i;
        }
    }
    name.len()
}

// Writes a name's first bytes, up to the first one that is written by its number. Returns how many
// of its bytes these are.
fn put_front<'a, E: Write>(name: &[u8], errors: &mut E) -> Result<usize, Fault<'a>>
    requires { 0 < length name.now }
    ensures within { IfOk result (λ n. (0 < n) × (n ≤ length name.now)) }
    ensures ok { IfOk result (λ n. Appends (E.contents errors.old) (E.contents errors.new)
        (shown_name (take n name.now))) }
    ensures err { IfErr result (λ fault. (fault ≡ Fault.Output)
        × AppendsSome (E.contents errors.old) (E.contents errors.new) (shown_name name.now)) }
{
    let plain = plain_front(name);
    send(errors, &name[..plain])?;
    if plain == name.len() {
        return Ok(plain);
    }
    put_shown(name[plain], errors)?;
    Ok(plain + 1)
}

/// Writes a file's name, without the bytes that would end a line or begin an explanation.
pub(crate) fn put_name<'a, E: Write>(name: &str, errors: &mut E) -> Result<(), Fault<'a>>
    ensures { Puts (E.contents errors.old) (shown_name name.now) result (E.contents errors.new) }
{
    let mut rest = name.as_bytes();
    while !rest.is_empty() {
        let written = put_front(rest, errors)?;
        rest = &rest[written..];
    }
    Ok(())
}

/// Writes characters, as those of a file's name.
pub(crate) fn put_characters<'a, E: Write>(
    characters: &[char],
    errors: &mut E,
) -> Result<(), Fault<'a>>
    ensures { Puts (E.contents errors.old) (shown_name (encode_utf8_all characters.now)) result
        (E.contents errors.new) }
{
    match characters {
        [] => Ok(()),
        [first, rest @ ..] => {
            put_character(*first, errors)?;
            put_characters(rest, errors)
        }
    }
}

// Writes a character, as one of a file's name.
fn put_character<'a, E: Write>(c: char, errors: &mut E) -> Result<(), Fault<'a>>
    ensures { Puts (E.contents errors.old) (shown_name (encode_utf8 c)) result (E.contents errors.new) }
{
    let mut room = [0u8; 4];
    put_name(c.encode_utf8(&mut room), errors)
}
