//! A session that reads its lines and writes what they print.

ghost use Rattle.std.specs.Prelude.{IfErr, OnOk};
ghost use Rattle.s161_base.specs.Streams.{streams};
ghost use Rattle.s161_debug.specs.Sessions.{Breaks, Ends};
ghost use Rattle.s161_debug.specs.helpers.Sessions.{DoesTurn, Turns, place};

use crate::answer::answer;
use crate::debugged::Debugged;
use crate::left::Left;
use crate::line::{Line, read_line};
use crate::notes::send_note;
use s161_base::fault::{Fault, Unread};
use s161_base::streams::send;
use std::alloc::Global;
use std::io::{Read, Write};

/// Does the lines of an input, until it ends or a line is `quit`. What a line prints is written and
/// flushed, and then the note on it, before a byte of the next one is read.
///
/// # Errors
/// The input can't be read, a line is too long or isn't UTF-8, or the output or standard error failed;
/// or memory was refused for the bytes of a line.
pub(crate) fn serve<'a, I: Read, O: Write, E: Write>(
    alloc: Global,
    session: Debugged,
    left: Left,
    input: &mut I,
    output: &mut O,
    errors: &mut E,
) -> Result<(), Fault<'a>>
    ensures ok { OnOk result (Ends session left (streams (I.remaining input.old)
        (I.remaining input.new) (O.contents output.old) (O.contents output.new))
        (E.contents errors.old) (E.contents errors.new)) }
    ensures err { IfErr result (Breaks session left (streams (I.remaining input.old)
        (I.remaining input.new) (O.contents output.old) (O.contents output.new))
        (E.contents errors.old) (E.contents errors.new)) }
{
    let mut session = session;
    let mut left = left;
    for _line in 0..u64::MAX {
        let goes_on = serve_line(alloc, &mut session, &mut left, input, output, errors)?;
        if !goes_on {
            return Ok(());
        }
    }
    Err(Fault::Input(Unread::Failed))
}

// Does the next line of an input, if there is one. Returns whether another may follow.
fn serve_line<'a, I: Read, O: Write, E: Write>(
    alloc: Global,
    session: &mut Debugged,
    left: &mut Left,
    input: &mut I,
    output: &mut O,
    errors: &mut E,
) -> Result<bool, Fault<'a>>
    ensures { Turns (I.remaining input.old)
        (place session.old left.old (O.contents output.old) (E.contents errors.old))
        result (I.remaining input.new)
        (place session.new left.new (O.contents output.new) (E.contents errors.new)) }
{
    let Some(line) = read_line(alloc, input)? else {
        return Ok(false);
    };
    do_line(alloc, session, left, &line, output, errors)
}

// Does a line, and writes what it prints, and the note on it. Returns whether another may follow.
fn do_line<'a, O: Write, E: Write>(
    alloc: Global,
    session: &mut Debugged,
    left: &mut Left,
    line: &Line,
    output: &mut O,
    errors: &mut E,
) -> Result<bool, Fault<'a>>
    ensures { DoesTurn line.now.ended line.now.bytes.items
        (place session.old left.old (O.contents output.old) (E.contents errors.old)) result
        (place session.new left.new (O.contents output.new) (E.contents errors.new)) }
{
    let Ok(text) = std::str::from_utf8(&line.bytes) else {
        return Err(Fault::Input(Unread::NotUtf8));
    };
    let printed = answer(alloc, session, text, left);
    send(output, printed.as_bytes())?;
    send_note(text, printed.as_bytes(), errors)?;
    Ok(line.ended && text != "quit")
}
