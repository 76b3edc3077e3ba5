//! The tasks whose text is complete before it is written.

ghost use Rattle.std.specs.Prelude.{◌≡◌, ◌≢◌, ◌≤◌, ◌++◌, [], IfErr, IfOk, None, OnOk, map, string_bytes};
ghost use Rattle.m161_order.specs.Order.{order_fault};
ghost use Rattle.s161_base.specs.Asked.{AsksFor, IsBeforeInput, image_files};
ghost use Rattle.s161_base.specs.Samples.{image_file};
ghost use Rattle.s161_base.specs.Streams.{AppendsSome};
ghost use Rattle.s161_command.specs.Commands.{HasLimits};
ghost use Rattle.s161_run.specs.Demos.{IsDemo};
ghost use Rattle.s161_run.specs.Driven.{IsDriven, IsDrivenFault, driven_files};
ghost use Rattle.s161_run.specs.Runs.{IsFaultOf, IsRun, status_of, told_text};
ghost use Rattle.s161_run.specs.Schedules.{IsScheduled, IsScheduledFault, schedule_files};
ghost use Rattle.s161_run.specs.Threads.{IsRunInThreads, IsThreadsFault};
ghost use Rattle.s161_texts.specs.Assemblies.{IsAssembled};
ghost use Rattle.s161_texts.specs.Listings.{IsDisassembled};
ghost use Rattle.s161_work.specs.Assemblies.{IsAssemblyFault};
ghost use Rattle.s161_work.specs.Failures.{Fails, IsTaskFault};
ghost use Rattle.s161_work.specs.Listings.{IsListingFault};
ghost use Rattle.s161_work.specs.Works.{IsResultOf, LeavesInput, OfRun, Prints, Tells, WithZero, files_of, going_of, standard};

use s161_base::fault::Fault;
use s161_base::files::FileSource;
use s161_base::finished::Finished;
use s161_base::input::read_input;
use s161_base::sample::read_image;
use s161_base::streams::send;
use s161_command::{
    AssemblyTask, DrivenTask, ListingTask, RunTask, ScheduleTask, Shown, Task, ThreadsTask,
};
use s161_progress::Progress;
use s161_run::demo::demo;
use s161_run::driven::run_driven;
use s161_run::replay::replay;
use s161_run::run::run;
use s161_run::schedule::schedule;
use s161_run::summary::{Ran, status, told};
use s161_run::threaded::run_in_threads;
use s161_search::audit::audit;
use s161_search::explore::explore;
use s161_search::search::search;
use s161_texts::assembly::assembly;
use s161_texts::disassembly::disassembly;
use std::alloc::Global;
use std::io::{Read, Write};
use std::sync::Wait;
use std::thread::Threads;

/// Prints the text of a task that writes it at once, and then what the task says on standard error.
/// Returns the exit status.
pub(crate) fn print_task<'a, R: Threads + Wait + Sync, F: FileSource, I: Read, O: Write, E: Write>(
    rt: &R,
    alloc: Global,
    task: Task<'a>,
    never: &[&'a str],
    files: &mut F,
    input: &mut I,
    output: &mut O,
    errors: &mut E,
    progress: &Progress,
) -> Result<u8, Fault<'a>>
    requires limits { HasLimits task }
    requires text { going_of task ≡ None }
    ensures finished { IfOk result (Prints (IsResultOf (map (λ word. word.now) never.now) task.entry (F.known files.old)
        (I.remaining input.old))
        (standard (I.remaining input.old) (O.contents output.old) (E.contents errors.old))
        (standard (I.remaining input.new) (O.contents output.new) (E.contents errors.new))) }
    ensures fault { IfErr result (Fails
        (IsResultOf (map (λ word. word.now) never.now) task.entry (F.known files.old) (I.remaining input.old))
        (IsTaskFault (map (λ word. word.now) never.now) task.entry (F.known files.old) (I.remaining input.old))
        (standard (I.remaining input.old) (O.contents output.old) (E.contents errors.old))
        (standard (I.remaining input.new) (O.contents output.new) (E.contents errors.new))) }
    ensures unread { LeavesInput task.entry (I.remaining input.old) (I.remaining input.new) }
    ensures asks { AsksFor (files_of task.entry) result (F.asked files.old)
        (F.asked files.new) }
    ensures before { IfErr result (λ fault. IsBeforeInput fault (I.remaining input.old)
        (I.remaining input.new)) }
    ensures within { IfOk result (λ status. (status ≤ 6) × (status ≢ 2)) }
{
    let mut said = String::new(alloc);
    let finished = finish(rt, alloc, task, never, files, input, progress, &mut said)?;
    send(output, &finished.text)?;
    tell(errors, said.as_str())?;
    Ok(finished.status)
}

// Writes a text, if it isn't empty.
fn tell<'a, E: Write>(errors: &mut E, said: &str) -> Result<(), Fault<'a>>
    ensures ok { OnOk result (Tells said.now (E.contents errors.old) (E.contents errors.new)) }
    ensures err { IfErr result (λ fault. (fault ≡ Fault.Output)
        × AppendsSome (E.contents errors.old) (E.contents errors.new) said.now) }
{
    if said.is_empty() {
        return Ok(());
    }
    send(errors, said.as_bytes())
}

// The text that a task prints, and its exit status; and what it says on standard error.
fn finish<'a, R: Threads + Wait + Sync, F: FileSource, I: Read>(
    rt: &R,
    alloc: Global,
    task: Task<'a>,
    never: &[&'a str],
    files: &mut F,
    input: &mut I,
    progress: &Progress,
    said: &mut String,
) -> Result<Finished, Fault<'a>>
    requires limits { HasLimits task }
    requires text { going_of task ≡ None }
    requires empty { string_bytes said.old ≡ [] }
    ensures ok { IfOk result (λ done. IsResultOf (map (λ word. word.now) never.now) task.entry (F.known files.old)
        (I.remaining input.old) done.text.items (string_bytes said.new) done.status) }
    ensures fault { IfErr result (IsTaskFault (map (λ word. word.now) never.now) task.entry (F.known files.old)
        (I.remaining input.old)) }
    ensures unread { LeavesInput task.entry (I.remaining input.old) (I.remaining input.new) }
    ensures asks { AsksFor (files_of task.entry) result (F.asked files.old)
        (F.asked files.new) }
    ensures before { IfErr result (λ fault. IsBeforeInput fault (I.remaining input.old)
        (I.remaining input.new)) }
    ensures within { IfOk result (λ done. (done.status ≤ 6) × (done.status ≢ 2)) }
{
    match task {
        Task::Demo => finish_demo(alloc),
        Task::Run(task) => finish_scheduled(alloc, files, input, task, progress, said),
        Task::RunInThreads(task) => finish_threads(rt, alloc, files, task, said),
        Task::RunDriven(task) => finish_driven(alloc, files, task, progress, said),
        Task::Schedule(task) => finish_schedule(alloc, files, task),
        Task::Console(_) | Task::Trace(_) | Task::Debug(_) | Task::Gdb(_) => unreachable!(),
        Task::Search(task) => search(rt, alloc, files, task, never, progress, said),
        Task::Explore(task) => explore(alloc, files, task, never, progress, said),
        Task::Replay(task) => replay(alloc, files, task, progress),
        Task::Audit(task) => audit(alloc, files, input, task, progress, said),
        Task::Assemble(task) => finish_assembly(alloc, input, task),
        Task::Disassemble(task) => finish_listing(alloc, files, task),
    }
}

// The text and the exit status of a run; and what it says on standard error.
fn finish_run<'a>(
    alloc: Global,
    ran: Ran,
    shown: Shown,
    said: &mut String,
) -> Result<Finished, Fault<'a>>
    ensures text { IfOk result (λ done. done.text.items ≡ ran.text.items) }
    ensures status { IfOk result (λ done. done.status ≡ status_of ran.stop) }
    ensures said { IfOk result (λ done. string_bytes said.new
        ≡ told_text ran.stop shown ++ string_bytes ran.notes) }
    ensures err { IfErr result (λ fault. fault ≡ Fault.Memory) }
{
    let Ran { text, notes, stop } = ran;
    *said = told(alloc, stop, shown)?;
    said.push_str(notes.as_str())?;
    Ok(Finished {
        text,
        status: status(stop),
    })
}

// A run under a schedule.
fn finish_scheduled<'a, F: FileSource, I: Read>(
    alloc: Global,
    files: &mut F,
    input: &mut I,
    task: RunTask<'a>,
    progress: &Progress,
    said: &mut String,
) -> Result<Finished, Fault<'a>>
    ensures ok { IfOk result (λ done. OfRun task.entry.shown (IsRun task.entry
        (image_file (F.known files.old) task.entry.image.now) (I.remaining input.old))
        done.text.items (string_bytes said.new) done.status) }
    ensures fault { IfErr result (IsFaultOf task.entry
        (image_file (F.known files.old) task.entry.image.now) (I.remaining input.old)) }
    ensures asks { AsksFor (image_files task.entry.image.now) result (F.asked files.old)
        (F.asked files.new) }
    ensures unread { IfErr result (λ fault. IsBeforeInput fault (I.remaining input.old)
        (I.remaining input.new)) }
{
    let ran = run(alloc, files, input, task, progress)?;
    finish_run(alloc, ran, task.shown, said)
}

// A run in threads.
fn finish_threads<'a, R: Threads + Wait + Sync, F: FileSource>(
    rt: &R,
    alloc: Global,
    files: &mut F,
    task: ThreadsTask<'a>,
    said: &mut String,
) -> Result<Finished, Fault<'a>>
    ensures ok { IfOk result (λ done. OfRun task.entry.run.shown (IsRunInThreads task.entry
        (image_file (F.known files.old) task.entry.run.image.now))
        done.text.items (string_bytes said.new) done.status) }
    ensures fault { IfErr result (IsThreadsFault task.entry
        (image_file (F.known files.old) task.entry.run.image.now)) }
    ensures asks { AsksFor (image_files task.entry.run.image.now) result (F.asked files.old)
        (F.asked files.new) }
{
    let ran = run_in_threads(rt, alloc, files, task)?;
    finish_run(alloc, ran, task.run.shown, said)
}

// A run by a policy.
fn finish_driven<'a, F: FileSource>(
    alloc: Global,
    files: &mut F,
    task: DrivenTask<'a>,
    progress: &Progress,
    said: &mut String,
) -> Result<Finished, Fault<'a>>
    requires { order_fault task.drive.order ≡ None }
    ensures ok { IfOk result (λ done. OfRun task.entry.run.shown (IsDriven task.entry (F.known files.old)
        (image_file (F.known files.old) task.entry.run.image.now))
        done.text.items (string_bytes said.new) done.status) }
    ensures fault { IfErr result (IsDrivenFault task.entry (F.known files.old)
        (image_file (F.known files.old) task.entry.run.image.now)) }
    ensures asks { AsksFor (driven_files task.entry) result (F.asked files.old)
        (F.asked files.new) }
{
    let ran = run_driven(alloc, files, task, progress)?;
    finish_run(alloc, ran, task.run.shown, said)
}

// The registers that `demo` shows.
fn finish_demo<'a>(alloc: Global) -> Result<Finished, Fault<'a>>
    ensures ok { IfOk result (λ done. WithZero IsDemo done.text.items done.status) }
    ensures fault { IfErr result (λ fault. fault ≡ Fault.Memory) }
{
    Ok(Finished::done(demo(alloc)?.into_bytes()))
}

// The schedule of a driven run.
fn finish_schedule<'a, F: FileSource>(
    alloc: Global,
    files: &mut F,
    task: ScheduleTask<'a>,
) -> Result<Finished, Fault<'a>>
    requires { order_fault task.drive.order ≡ None }
    ensures ok { IfOk result (λ done. WithZero (IsScheduled task.entry (F.known files.old)
        (image_file (F.known files.old) task.entry.image.now)) done.text.items done.status) }
    ensures fault { IfErr result (IsScheduledFault task.entry (F.known files.old)
        (image_file (F.known files.old) task.entry.image.now)) }
    ensures asks { AsksFor (schedule_files task.entry) result (F.asked files.old)
        (F.asked files.new) }
{
    Ok(Finished::done(schedule(alloc, files, task)?))
}

// The file of an assembled text.
fn finish_assembly<'a, I: Read>(
    alloc: Global,
    input: &mut I,
    task: AssemblyTask,
) -> Result<Finished, Fault<'a>>
    ensures ok { IfOk result (λ done. WithZero (IsAssembled task (I.remaining input.old))
        done.text.items done.status) }
    ensures fault { IfErr result (IsAssemblyFault (I.remaining input.old)) }
{
    let source = read_input(alloc, input)?;
    Ok(Finished::done(assembly(alloc, source.as_str(), task.symbols)?))
}

// The listing of an image.
fn finish_listing<'a, F: FileSource>(
    alloc: Global,
    files: &mut F,
    task: ListingTask<'a>,
) -> Result<Finished, Fault<'a>>
    ensures ok { IfOk result (λ done. WithZero (IsDisassembled task.entry
        (image_file (F.known files.old) task.entry.image.now)) done.text.items done.status) }
    ensures fault { IfErr result (IsListingFault task.entry.image.now
        (image_file (F.known files.old) task.entry.image.now)) }
    ensures asks { AsksFor (image_files task.entry.image.now) result (F.asked files.old)
        (F.asked files.new) }
{
    let file = read_image(alloc, files, task.image)?;
    let listing = disassembly(alloc, task.image, &file, task.registers, task.symbols)?;
    Ok(Finished::done(listing.into_bytes()))
}
