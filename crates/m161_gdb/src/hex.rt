//! Hexadecimal digits of either case.

ghost use Rattle.std.specs.Prelude.{◌≡◌, ◌<◌, IfSome};
ghost use Rattle.m161_text.specs.Parts.{hex_digit};
ghost use Rattle.m161_gdb.specs.Frames.{byte_value, has_value, hex_value};

/// The value of a hexadecimal digit.
pub(crate) fn hex_value(digit: u8) -> Option<u8>
    ensures value { result ≡ hex_value digit }
    ensures small { IfSome result (λ value. value < 16) }
{
    match digit {
        b'0'..=b'9' => Some(digit - b'0'),
        b'A'..=b'F' => Some(digit - b'A' + 10),
        b'a'..=b'f' => Some(digit - b'a' + 10),
        _ => None,
    }
}

/// The byte of two hexadecimal digits.
pub(crate) fn byte_value(high: u8, low: u8) -> Option<u8>
    ensures { result ≡ byte_value high low }
{
    let high = hex_value(high)?;
    let low = hex_value(low)?;
    Some(16 * high + low)
}

/// Whether two bytes are the hexadecimal digits of a third.
pub(crate) fn is_written(high: u8, low: u8, byte: u8) -> bool
    ensures { result ≡ has_value (byte_value high low) byte }
{
    match byte_value(high, low) {
        Some(value) => value == byte,
        None => false,
    }
}

/// The lower case hexadecimal digit of a value.
pub(crate) fn hex_digit(value: u8) -> u8
    requires { value < 16 }
    ensures { result ≡ hex_digit value }
{
    if value < 10 {
        b'0' + value
    } else {
        b'a' + (value - 10)
    }
}
