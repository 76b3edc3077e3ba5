//! Running an image under a schedule.

ghost use Rattle.std.specs.Prelude.{IfErr, IfOk, string_bytes};
ghost use Rattle.s161_run.specs.Runs.{IsFaultOf, IsRun};
ghost use Rattle.s161_base.specs.Asked.{AsksFor, IsBeforeInput, image_files};
ghost use Rattle.s161_base.specs.Samples.{image_file};

use crate::booted::boot_core;
use crate::log::new_log;
use crate::made::make_scheduled;
use crate::summary::{Ran, finish_run};
use crate::unhandled::unhandled_listed;
use s161_base::fault::Fault;
use s161_base::files::FileSource;
use s161_base::input::read_input;
use s161_base::listed::plan_run;
use s161_base::sample::read_image;
use s161_command::RunTask;
use s161_progress::{Progress, Unit};
use std::alloc::Global;
use std::io::Read;

/// Reads the image and then the schedule or the log, boots the image, in the machine that is asked for
/// over that text, and makes the text's events until one switches the machine off or is refused.
///
/// # Errors
/// The first fault.
// For LLVM: a stack frame of its own.
#[inline(never)]
pub fn run<'a, F: FileSource, I: Read>(
    alloc: Global,
    files: &mut F,
    input: &mut I,
    task: RunTask<'a>,
    progress: &Progress,
) -> Result<Ran, Fault<'a>>
    ensures ok { IfOk result (λ done. IsRun task.entry
        (image_file (F.known files.old) task.entry.image.now) (I.remaining input.old)
        done.text.items (string_bytes done.notes) done.stop) }
    ensures fault { IfErr result (IsFaultOf task.entry
        (image_file (F.known files.old) task.entry.image.now) (I.remaining input.old)) }
    ensures asks { AsksFor (image_files task.entry.image.now) result (F.asked files.old)
        (F.asked files.new) }
    ensures unread { IfErr result (λ fault. IsBeforeInput fault (I.remaining input.old)
        (I.remaining input.new)) }
{
    let file = read_image(alloc, files, task.image)?;
    let image = file.as_slice();
    let schedule = read_input(alloc, input)?;
    let run = plan_run(alloc, task.size, image, schedule.as_str())?;
    let mut core = boot_core(alloc, image, run.conf)?;
    let log = new_log(alloc, run.conf, task.shown)?;
    progress.begin(Unit::Events, Some(run.events.len() as u64));
    let made = make_scheduled(alloc, &mut core, &run.events, log, task.traps, progress)?;
    let unhandled = unhandled_listed(alloc, image, &core, &run.events, &made.watch)?;
    let done = finish_run(alloc, &core, made, image, task.shown, unhandled)?;
    Ok(done)
}
