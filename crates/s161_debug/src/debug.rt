//! Debugging an image, line by line.

ghost use Rattle.std.specs.Prelude.{IfErr, OnOk};
ghost use Rattle.s161_command.specs.Commands.{HasSourceLimits};
ghost use Rattle.s161_base.specs.Asked.{AsksFor};
ghost use Rattle.s161_base.specs.Samples.{image_file};
ghost use Rattle.s161_base.specs.Streams.{streams};
ghost use Rattle.s161_debug.specs.Debugs.{IsDebug, IsDebugFault, debug_files};

use crate::debugged::Debugged;
use crate::left::Left;
use crate::opening::open;
use crate::serving::serve;
use s161_base::fault::Fault;
use s161_base::files::FileSource;
use s161_command::DebugTask;
use std::alloc::Global;
use std::io::{Read, Write};

/// Reads the image and then the file of the events, or the files of the order that chooses them, boots
/// the image, and does the lines of the input, one after the other, until it ends or a line is `quit`.
/// What a line prints is written and flushed before a byte of the next one is read; and where that is an
/// error that is about what was typed, so is a note on standard error.
///
/// The events are those of a log, where the file's first line that is no comment begins with
/// `m161 `; else of a schedule. With an order all of those of the file of `--after`, if it is given, come
/// first, whether they are refused or not; behind them the order chooses, where each was made and the
/// machine is still on. The machine is the one that is given; what isn't given of it is as that text says:
/// a log in its machine line and its first line, a schedule in its machine line. A log that names another
/// machine, or another image, is a fault.
///
/// # Errors
/// The first fault. What was written stays.
// For LLVM: a stack frame of its own.
#[inline(never)]
pub fn debug<'a, F: FileSource, I: Read, O: Write, E: Write>(
    alloc: Global,
    files: &mut F,
    input: &mut I,
    output: &mut O,
    errors: &mut E,
    task: DebugTask<'a>,
) -> Result<(), Fault<'a>>
    requires { HasSourceLimits task.source }
    ensures ok { OnOk result (IsDebug task.entry (F.known files.old)
        (image_file (F.known files.old) task.entry.image.now)
        (streams (I.remaining input.old) (I.remaining input.new) (O.contents output.old)
        (O.contents output.new)) (E.contents errors.old) (E.contents errors.new)) }
    ensures fault { IfErr result (IsDebugFault task.entry (F.known files.old)
        (image_file (F.known files.old) task.entry.image.now)
        (streams (I.remaining input.old) (I.remaining input.new) (O.contents output.old)
        (O.contents output.new)) (E.contents errors.old) (E.contents errors.new)) }
    ensures asks { AsksFor (debug_files task.entry) result (F.asked files.old)
        (F.asked files.new) }
{
    let opened = open(alloc, files, task)?;
    let session = Debugged::new(opened.machine, opened.style, opened.again);
    let left = Left::new(opened.events);
    serve(alloc, session, left, input, output, errors)
}
