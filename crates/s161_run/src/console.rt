//! Running an image at a terminal.

ghost use Rattle.std.specs.Prelude.{◌≡◌, IfErr, IfOk, None};
ghost use Rattle.m161_order.specs.Order.{order_fault};
ghost use Rattle.s161_base.specs.Asked.{AsksFor, image_files};
ghost use Rattle.s161_base.specs.Samples.{image_file};
ghost use Rattle.s161_base.specs.Streams.{streams};
ghost use Rattle.s161_run.specs.Consoles.{IsConsoleRun, IsConsoleFault};

use crate::booted::boot_core;
use crate::driven::stop_of;
use crate::events::RunStop;
use crate::serving::serve;
use s161_base::fault::Fault;
use s161_base::files::FileSource;
use s161_base::sample::read_image;
use s161_base::sizes::conf_of;
use s161_command::ConsoleTask;
use std::alloc::Global;
use std::io::{Read, Write};

/// Reads the image, boots it, and makes the events that the policy chooses. The input's bytes are
/// its keys: one is read only where the policy types it, and none once the input has ended. Each
/// byte that the console sends is written, and the output flushed, before the next event.
///
/// # Errors
/// The first fault. What was written stays.
// For LLVM: a stack frame of its own.
#[inline(never)]
pub fn console<'a, F: FileSource, I: Read, O: Write>(
    alloc: Global,
    files: &mut F,
    input: &mut I,
    output: &mut O,
    task: ConsoleTask<'a>,
) -> Result<RunStop, Fault<'a>>
    requires { order_fault task.drive.order ≡ None }
    ensures ok { IfOk result (IsConsoleRun task.entry
        (image_file (F.known files.old) task.entry.image.now)
        (streams (I.remaining input.old) (I.remaining input.new) (O.contents output.old)
        (O.contents output.new))) }
    ensures fault { IfErr result (IsConsoleFault task.entry
        (image_file (F.known files.old) task.entry.image.now)
        (streams (I.remaining input.old) (I.remaining input.new) (O.contents output.old)
        (O.contents output.new))) }
    ensures asks { AsksFor (image_files task.entry.image.now) result (F.asked files.old)
        (F.asked files.new) }
{
    let file = read_image(alloc, files, task.image)?;
    let mut core = boot_core(alloc, &file, conf_of(task.size))?;
    let driven = serve(&mut core, task.drive, input, output)?;
    Ok(stop_of(driven, &core))
}
