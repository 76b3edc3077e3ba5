//! Reading the lines of an input byte by byte, so that none is read before the line is done that
//! stands before it.

ghost use Rattle.std.specs.Prelude.{◌≡◌, ◌<◌, false, IfErr, IfNone, IfOk, IfSome};
ghost use Rattle.s161_debug.specs.helpers.Sessions.{IsUnfinished, ReadsLine};

use crate::blanks::keep;
use s161_base::fault::{Fault, Unread};
use s161_base::streams::read_byte;
use std::alloc::Global;
use std::io::Read;

/// The greatest number of bytes of a line.
const LIMIT: usize = 402_653_184;

/// A line of an input, without its end.
#[derive(Drop)]
pub(crate) struct Line {
    /// Its words, with one space between two.
    pub(crate) bytes: Vec<u8>,
    /// Whether it has an end; only the last line may lack it.
    pub(crate) ended: bool,
}

/// The next line of an input, if there is one.
///
/// # Errors
/// The input can't be read, or the line has more than 402,653,184 bytes; or memory was refused.
pub(crate) fn read_line<'a, I: Read>(
    alloc: Global,
    input: &mut I,
) -> Result<Option<Line>, Fault<'a>>
    ensures ok { IfOk result (λ line. ReadsLine (I.remaining input.old) line
        (I.remaining input.new)) }
    ensures err { IfErr result (IsUnfinished (I.remaining input.old) (I.remaining input.new)) }
{
    let mut bytes = Vec::new(alloc);
    let mut apart = false;
    for many in 0..LIMIT + 1 {
        let Some(byte) = read_byte(input)? else {
            return Ok(last_line(bytes, many));
        };
        if byte == b'\n' {
            return Ok(Some(Line { bytes, ended: true }));
        }
        apart = keep(&mut bytes, apart, byte)?;
    }
    Err(Fault::Input(Unread::TooLong))
}

// The last line, without an end, if so many bytes of it, at least one, were read.
fn last_line(bytes: Vec<u8>, many: usize) -> Option<Line>
    ensures none { IfNone result (many ≡ 0) }
    ensures some { IfSome result (λ line. (line.bytes ≡ bytes) × (line.ended ≡ false) × (0 < many)) }
{
    if many == 0 {
        return None;
    }
    Some(Line {
        bytes,
        ended: false,
    })
}
