//! Running an image by a policy.

ghost use Rattle.std.specs.Prelude.{◌≡◌, IfErr, IfOk, None, string_bytes};
ghost use Rattle.m161_order.specs.Order.{order_fault};
ghost use Rattle.s161_base.specs.Asked.{AsksFor};
ghost use Rattle.s161_base.specs.Samples.{image_file};
ghost use Rattle.s161_run.specs.Driven.{IsDriven, IsDrivenFault, driven_files, stop_of};

use crate::booted::boot_core;
use crate::events::{RunStop, stop_off};
use crate::inputs::{Inputs, read_inputs};
use crate::log::new_log;
use crate::made::make_chosen;
use crate::summary::{Ran, finish_run};
use crate::unhandled::unhandled_chosen;
use m161::Core;
use m161_drive::Driven;
use s161_base::fault::Fault;
use s161_base::files::FileSource;
use s161_command::DrivenTask;
use s161_progress::{Progress, Unit};
use std::alloc::Global;

/// Reads the image, the text of the events that come first, and the keys; boots the image, and makes the
/// first events and then those that the policy chooses.
///
/// # Errors
/// The first fault.
// For LLVM: a stack frame of its own.
#[inline(never)]
pub fn run_driven<'a, F: FileSource>(
    alloc: Global,
    files: &mut F,
    task: DrivenTask<'a>,
    progress: &Progress,
) -> Result<Ran, Fault<'a>>
    requires { order_fault task.drive.order ≡ None }
    ensures ok { IfOk result (λ done. IsDriven task.entry (F.known files.old)
        (image_file (F.known files.old) task.entry.run.image.now) done.text.items (string_bytes done.notes) done.stop) }
    ensures fault { IfErr result (IsDrivenFault task.entry (F.known files.old)
        (image_file (F.known files.old) task.entry.run.image.now)) }
    ensures asks { AsksFor (driven_files task.entry) result (F.asked files.old)
        (F.asked files.new) }
{
    let read = read_inputs(alloc, files, task.run.image, task.run.size, task.drive)?;
    let Inputs { file, keys, first } = read;
    let mut core = boot_core(alloc, &file, first.conf)?;
    let log = new_log(alloc, first.conf, task.run.shown)?;
    let events = &first.events;
    let most = task.drive.events.saturating_add(events.len() as u64);
    progress.begin(Unit::Events, Some(most));
    let made = make_chosen(
        alloc,
        &mut core,
        events,
        task.drive,
        &keys,
        log,
        task.run.traps,
        progress,
    )?;
    let unhandled = unhandled_chosen(alloc, &file, &core, events, task.drive, &keys, &made.watch)?;
    let done = finish_run(alloc, &core, made, &file, task.run.shown, unhandled)?;
    Ok(done)
}

/// How a driven run stopped that ended in this state, as a command tells it.
pub fn stop_of(driven: Driven, core: &Core) -> RunStop
    ensures { result ≡ stop_of driven core.now.state }
{
    match driven.stop {
        m161_drive::Stop::Off => stop_off(core.conflict()),
        m161_drive::Stop::End => RunStop::End,
        m161_drive::Stop::Stuck => RunStop::Stuck,
        m161_drive::Stop::Refused(refusal) => RunStop::Refused(driven.made as usize, refusal),
    }
}
