//! Places as texts.

ghost use Rattle.std.specs.Prelude.{◌≡◌, ◌+◌, ◌≤◌, ◌++◌, Some, if◌then◌else◌, is_ok, length, string_bytes, string_capacity, string_len};
ghost use Rattle.m161_symbols.specs.Names.{behind_of, distance_text, hex_size, place_behind, place_of, place_text};

use crate::names::Symbols;
use m161_text::{put, put_hex};
use std::alloc::AllocError;

/// The most bytes of a place beside its name, with a space before it.
pub const PLACE_MARKS: usize = 12;

/// How many hexadecimal digits a number has without leading zeros.
fn hex_size(number: u32) -> u32
    ensures value { result ≡ hex_size number }
    ensures most { result ≤ 8 }
{
    match number {
        0..=0xf => 1,
        0x10..=0xff => 2,
        0x100..=0xfff => 3,
        0x1000..=0xffff => 4,
        0x1_0000..=0xf_ffff => 5,
        0x10_0000..=0xff_ffff => 6,
        0x100_0000..=0xfff_ffff => 7,
        _ => 8,
    }
}

// Appends how far a place is behind a symbol: 9 bytes at most.
fn put_distance(text: &mut String, distance: u32)
    requires { string_len text.old + 9 ≤ string_capacity text.old }
    ensures bytes { string_bytes text.new ≡ string_bytes text.old ++ distance_text distance }
    ensures len { string_len text.new ≤ string_len text.old + 9 }
    ensures capacity { string_capacity text.old ≤ string_capacity text.new }
{
    if distance == 0 {
        return;
    }
    put(text, "+");
    put_hex(text, hex_size(distance), distance);
}

// Appends a place: its name and 11 bytes at most.
fn put_place(text: &mut String, name: &str, distance: u32)
    requires { string_len text.old + length name.now + 11 ≤ string_capacity text.old }
    ensures { string_bytes text.new ≡ string_bytes text.old ++ place_of (Some (name.now, distance)) }
{
    put(text, "<");
    put(text, name);
    put_distance(text, distance);
    put(text, ">");
}

/// Appends a place, which `Symbols::nearest` gave, behind its address: `<name>` or `<name+N>` with a
/// space before it. There is room for the name and `PLACE_MARKS` bytes, so that this can't fail.
pub fn put_place_behind(text: &mut String, name: &str, distance: u32)
    requires { string_len text.old + length name.now + PLACE_MARKS ≤ string_capacity text.old }
    ensures { string_bytes text.new
        ≡ string_bytes text.old ++ behind_of (Some (name.now, distance)) }
{
    put(text, " ");
    put_place(text, name, distance);
}

/// Appends the place of an address: `<name>` or `<name+N>` by the nearest symbol; nothing if there
/// is none.
///
/// # Errors
/// Memory was refused. The text is as before then.
pub fn push_place(text: &mut String, symbols: &Symbols, address: u32) -> Result<(), AllocError>
    ensures { string_bytes text.new ≡ (if is_ok result
        then string_bytes text.old ++ place_text symbols.now address
        else string_bytes text.old) }
{
    let Some((name, distance)) = symbols.nearest(address) else {
        return Ok(());
    };
    text.reserve(name.len() + PLACE_MARKS)?;
    put_place(text, name, distance);
    Ok(())
}

/// Appends the place of an address behind the address: the same with a space before it; nothing if
/// there is none.
///
/// # Errors
/// Memory was refused. The text is as before then.
pub fn push_place_behind(
    text: &mut String,
    symbols: &Symbols,
    address: u32,
) -> Result<(), AllocError>
    ensures { string_bytes text.new ≡ (if is_ok result
        then string_bytes text.old ++ place_behind symbols.now address
        else string_bytes text.old) }
{
    let Some((name, distance)) = symbols.nearest(address) else {
        return Ok(());
    };
    text.reserve(name.len() + PLACE_MARKS)?;
    put_place_behind(text, name, distance);
    Ok(())
}
