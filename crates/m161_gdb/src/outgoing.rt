//! The frames that are sent.

ghost use Rattle.std.specs.Prelude.{◌≡◌, ◌%◌, IfOk, sum};
ghost use Rattle.m161_gdb.specs.Frames.{frame_text};

use crate::hex::hex_digit;
use std::alloc::{AllocError, Global};

// The sum of bytes modulo 256.
fn sum_of(bytes: &[u8]) -> u8
    ensures { result ≡ sum bytes.now % 256 }
{
    let mut total = 0u8;
    for byte in bytes {
        total = total.wrapping_add(*byte);
    }
    total
}

/// The frame of a body: `$`, the body, `#`, and its sum as two lower case hexadecimal digits.
///
/// # Errors
/// Memory was refused.
pub fn frame(alloc: Global, body: &[u8]) -> Result<Vec<u8>, AllocError>
    ensures { IfOk result (λ bytes. bytes.items ≡ frame_text body.now) }
{
    let sum = sum_of(body);
    let mut bytes = Vec::new(alloc);
    bytes.push(b'$')?;
    bytes.extend_from_slice(body)?;
    bytes.push(b'#')?;
    bytes.push(hex_digit(sum / 16))?;
    bytes.push(hex_digit(sum % 16))?;
    Ok(bytes)
}
