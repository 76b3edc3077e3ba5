//! The events of a run by an order, as a schedule.

ghost use Rattle.std.specs.Prelude.{◌≡◌, ◌++◌, ◌≤◌, IfErr, IfOk, None, length};
ghost use Rattle.m161_order.specs.Order.{order_fault};
ghost use Rattle.m161_steplog.specs.Schedule.{IsSchedule};
ghost use Rattle.m161_steplog.specs.Written.{schedule_text};
ghost use Rattle.m161_text.specs.Lines.{lines_of};
ghost use Rattle.s161_base.specs.Asked.{AsksFor};
ghost use Rattle.s161_base.specs.Samples.{image_file};
ghost use Rattle.s161_base.specs.Sizes.{size_line_text};
ghost use Rattle.s161_run.specs.Schedules.{IsScheduled, IsScheduledFault, schedule_files};

use crate::behind::events_behind;
use crate::booted::boot_core;
use crate::inputs::{Inputs, read_inputs};
use m161_machine::{Conf, Event};
use m161_steplog::{schedule_behind_size_line, write_schedule};
use s161_base::fault::Fault;
use s161_base::files::FileSource;
use s161_base::sizes::line_of_machine;
use s161_command::ScheduleTask;
use std::alloc::{AllocError, Global};

/// Reads the image, the text of the events that come first, and the keys; boots the image, makes the
/// first events and then those that the policy chooses, and writes them down.
///
/// # Errors
/// The first fault; an event of the policy that is refused is a want of memory.
// For LLVM: a stack frame of its own.
#[inline(never)]
pub fn schedule<'a, F: FileSource>(
    alloc: Global,
    files: &mut F,
    task: ScheduleTask<'a>,
) -> Result<Vec<u8>, Fault<'a>>
    requires { order_fault task.drive.order ≡ None }
    ensures ok { IfOk result (λ text. IsScheduled task.entry (F.known files.old)
        (image_file (F.known files.old) task.entry.image.now) text.items) }
    ensures fault { IfErr result (IsScheduledFault task.entry (F.known files.old)
        (image_file (F.known files.old) task.entry.image.now)) }
    ensures asks { AsksFor (schedule_files task.entry) result (F.asked files.old)
        (F.asked files.new) }
{
    let read = read_inputs(alloc, files, task.image, task.size, task.drive)?;
    let Inputs { file, keys, first } = read;
    let mut core = boot_core(alloc, &file, first.conf)?;
    let events = events_behind(alloc, &mut core, &first.events, task.drive, &keys)?;
    let text = write_sized(alloc, first.conf, &events)?;
    Ok(text)
}

// The machine line of this machine, and the text of a schedule with these events.
fn write_sized(alloc: Global, conf: Conf, events: &[Event]) -> Result<Vec<u8>, AllocError>
    ensures text { IfOk result (λ text. text.items
        ≡ size_line_text conf ++ schedule_text events.now) }
    ensures read { IfOk result (λ text. length events.now ≤ 16_777_216
        → IsSchedule (lines_of text.items) events.now) }
{
    schedule_behind_size_line();
    let mut text = line_of_machine(alloc, conf)?;
    let lines = write_schedule(alloc, events)?;
    text.push_str(lines.as_str())?;
    Ok(text.into_bytes())
}
