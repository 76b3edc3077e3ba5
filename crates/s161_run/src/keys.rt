//! The keys of a run at a terminal: bytes of an input.

ghost use Rattle.std.specs.Prelude.{◌≡◌, false, true, [], IfErr, IfOk};
ghost use Rattle.std.specs.Io.KnownBytes.{Consumes, IsAtEnd};
ghost use Rattle.s161_run.specs.helpers.Consoles.{GivesKey};

use s161_base::fault::{Fault, Unread};
use s161_base::streams::read_byte;
use std::io::Read;

/// The next byte of an input. There is none once it has ended, and then it isn't read again.
///
/// # Errors
/// The input can't be read.
pub(crate) fn read_key<'a, I: Read>(
    input: &mut I,
    ended: &mut bool,
) -> Result<Option<u8>, Fault<'a>>
    requires { ended.old ≡ true → IsAtEnd (I.remaining input.old) }
    ensures ok { IfOk result (λ key. GivesKey true ended.old (I.remaining input.old)
        key ended.new (I.remaining input.new)) }
    ensures err { IfErr result (λ fault. (fault ≡ Fault.Input Unread.Failed) × (ended.old ≡ false)
        × Consumes (I.remaining input.old) (I.remaining input.new) []) }
{
    if *ended {
        return Ok(None);
    }
    let key = read_byte(input)?;
    *ended = key.is_none();
    Ok(key)
}
