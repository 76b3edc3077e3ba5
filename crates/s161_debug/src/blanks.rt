//! The spaces and tabs of a line.

ghost use Rattle.std.specs.Prelude.{◌≡◌, ◌∷◌, ℕ, List, IfOk};
ghost use Rattle.s161_debug.specs.Blanks.{is_blank};
ghost use Rattle.s161_debug.specs.helpers.Blanks.{kept_with};

use std::alloc::AllocError;

// Whether a byte is a space or a tab.
fn is_blank(byte: u8) -> bool
    ensures { result ≡ is_blank byte }
{
    byte == b' ' || byte == b'\t'
}

/// Keeps one more byte of a line, behind a blank that isn't kept yet or not: a blank counts as a space
/// once a word follows it. Returns whether a blank isn't kept yet.
pub(crate) fn keep(bytes: &mut Vec<u8>, apart: bool, byte: u8) -> Result<bool, AllocError>
    ensures { IfOk result (λ still. (rest : List ℕ) → kept_with bytes.new.items still rest
        ≡ kept_with bytes.old.items apart (byte ∷ rest)) }
{
    if is_blank(byte) {
        return Ok(true);
    }
    if apart && !bytes.is_empty() {
        bytes.extend_from_slice(&[b' ', byte])?;
    } else {
        bytes.extend_from_slice(&[byte])?;
    }
    Ok(false)
}
