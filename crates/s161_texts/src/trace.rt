//! Printing a line for each event of a run.

ghost use Rattle.std.specs.Prelude.{◌≡◌, ℕ, List, Option, IfErr, IfOk, IfSome, None, Some};
ghost use Rattle.m161_order.specs.Order.{order_fault};
ghost use Rattle.s161_base.specs.Asked.{AsksFor, IsBeforeInput, image_files};
ghost use Rattle.s161_base.specs.Known.{OfText};
ghost use Rattle.s161_base.specs.Listed.{ListsFor};
ghost use Rattle.s161_base.specs.Samples.{image_file};
ghost use Rattle.s161_base.specs.Streams.{streams};
ghost use Rattle.s161_run.specs.Driven.{order_files, rules_of};
ghost use Rattle.s161_run.specs.Runs.{IsFaultOf};
ghost use Rattle.s161_texts.specs.Traces.{GoesSome, IsTraced, IsTraceFault, MakesSome, run_of, trace_files};
ghost use Rattle.s161_texts.specs.helpers.Booted.{FailsRun, IsSharedIf, PrintsRun, with_shared};
ghost use Rattle.s161_base.specs.declared.fault.Fault.TheVariants.{Memory};
ghost use Rattle.s161_texts.specs.helpers.Driven.{GoesAll};
ghost use Rattle.s161_texts.specs.helpers.Scheduled.{MakesAll};

use crate::driven::{print_drive, shared_in_drive};
use crate::filter::LineFilter;
use crate::scheduled::{print_schedule, shared_in_schedule};
use m161::Machine;
use m161_machine::{Conf, Events};
use s161_base::fault::Fault;
use s161_base::files::FileSource;
use s161_base::input::read_input;
use s161_base::listed::{Planned, plan_run};
use s161_base::sample::read_image;
use s161_command::{Drive, TraceTask};
use s161_run::booted::boot_machine;
use s161_run::events::RunStop;
use s161_run::inputs::{Inputs, read_inputs};
use std::alloc::Global;
use std::io::{Read, Write};

/// Reads the image, and the schedule or the log from the input, or with an order the text of the events that
/// come first and the keys; boots the image, and makes the text's events, and with an order those that it
/// chooses behind them. The lines of the events that the task asks for are written in pieces of whole lines,
/// at most 65,536 bytes each, as the run goes on; the last piece ends with why it stopped.
///
/// # Errors
/// The first fault. What was written stays.
// For LLVM: a stack frame of its own.
#[inline(never)]
pub fn trace<'a, F: FileSource, I: Read, O: Write>(
    alloc: Global,
    files: &mut F,
    input: &mut I,
    output: &mut O,
    task: TraceTask<'a>,
) -> Result<RunStop, Fault<'a>>
    requires { IfSome task.drive (λ drive. order_fault drive.order ≡ None) }
    ensures ok { IfOk result (IsTraced task.entry (F.known files.old)
        (image_file (F.known files.old) task.entry.image.now)
        (streams (I.remaining input.old) (I.remaining input.new) (O.contents output.old)
        (O.contents output.new))) }
    ensures fault { IfErr result (IsTraceFault task.entry (F.known files.old)
        (image_file (F.known files.old) task.entry.image.now)
        (streams (I.remaining input.old) (I.remaining input.new) (O.contents output.old)
        (O.contents output.new))) }
    ensures asks { AsksFor (trace_files task.entry) result (F.asked files.old)
        (F.asked files.new) }
    ensures unread { IfErr result (λ fault. IsBeforeInput fault (I.remaining input.old)
        (I.remaining input.new)) }
{
    match task.drive {
        None => trace_schedule(alloc, files, input, output, task),
        Some(drive) => {
            let stop = trace_driven(alloc, files, output, task, drive)?;
            Ok(stop)
        }
    }
}

// The image's bytes, the events of the schedule or of the log, and their machine.
fn read_scheduled<'a, F: FileSource, I: Read>(
    alloc: Global,
    files: &mut F,
    input: &mut I,
    task: TraceTask<'a>,
) -> Result<(Vec<u8>, Planned), Fault<'a>>
    ensures file { IfOk result (λ read. IfSome
        (image_file (F.known files.old) task.entry.image.now) (λ bytes. read.0.items ≡ bytes)) }
    ensures events { IfOk result (λ read. OfText (I.remaining input.old)
        (λ text. ListsFor task.entry.size read.0.items text read.1.events read.1.conf)) }
    ensures fault { IfErr result (IsFaultOf (run_of task.entry)
        (image_file (F.known files.old) task.entry.image.now) (I.remaining input.old)) }
    ensures asks { AsksFor (image_files task.entry.image.now) result (F.asked files.old)
        (F.asked files.new) }
    ensures unread { IfErr result (λ fault. IsBeforeInput fault (I.remaining input.old)
        (I.remaining input.new)) }
{
    let file = read_image(alloc, files, task.image)?;
    let schedule = read_input(alloc, input)?;
    let run = plan_run(alloc, task.size, &file, schedule.as_str())?;
    Ok((file, run))
}

// The filter, with the words of RAM, of so many bytes, that are shared in the run by a schedule, if the
// task asks for them.
fn share_schedule<'a>(
    alloc: Global,
    task: &TraceTask<'_>,
    ram: u32,
    machine: &Machine,
    events: &Events,
    filter: LineFilter,
) -> Result<LineFilter, Fault<'a>>
    ensures ok { IfOk result (λ w. (w ≡ with_shared filter w.shared)
        × IsSharedIf task.now ram machine.now.state (MakesAll events.now) w.shared) }
    ensures err { IfErr result (λ fault. fault ≡ Memory) }
{
    if !task.shared {
        return Ok(LineFilter {
            shared: None,
            ..filter
        });
    }
    let words = (ram / 4) as usize;
    let shared = shared_in_schedule(alloc, machine, events, words, task.from, task.count)?;
    Ok(LineFilter {
        shared: Some(shared),
        ..filter
    })
}

// Boots a file, and prints the lines of its run by a schedule.
fn run_schedule<'a, O: Write>(
    alloc: Global,
    task: &TraceTask<'a>,
    conf: Conf,
    file: &[u8],
    events: &Events,
    output: &mut O,
) -> Result<RunStop, Fault<'a>>
    ensures ok { IfOk result (PrintsRun task.now conf file.now (MakesAll events.now)
        (O.contents output.old) (O.contents output.new)) }
    ensures err { IfErr result (FailsRun task.now conf file.now (MakesSome events.now)
        (MakesAll events.now) (O.contents output.old) (O.contents output.new)) }
{
    let mut machine = boot_machine(alloc, file, conf)?;
    let filter = LineFilter::of(alloc, task, conf.ram, file)?;
    let filter = share_schedule(alloc, task, conf.ram, &machine, events, filter)?;
    print_schedule(alloc, &mut machine, events, filter, output)
}

// Prints the lines of a run by a schedule.
fn trace_schedule<'a, F: FileSource, I: Read, O: Write>(
    alloc: Global,
    files: &mut F,
    input: &mut I,
    output: &mut O,
    task: TraceTask<'a>,
) -> Result<RunStop, Fault<'a>>
    requires { task.drive ≡ None }
    ensures ok { IfOk result (IsTraced task.entry (F.known files.old)
        (image_file (F.known files.old) task.entry.image.now)
        (streams (I.remaining input.old) (I.remaining input.new) (O.contents output.old)
        (O.contents output.new))) }
    ensures fault { IfErr result (IsTraceFault task.entry (F.known files.old)
        (image_file (F.known files.old) task.entry.image.now)
        (streams (I.remaining input.old) (I.remaining input.new) (O.contents output.old)
        (O.contents output.new))) }
    ensures asks { AsksFor (image_files task.entry.image.now) result (F.asked files.old)
        (F.asked files.new) }
    ensures unread { IfErr result (λ fault. IsBeforeInput fault (I.remaining input.old)
        (I.remaining input.new)) }
{
    let read = read_scheduled(alloc, files, input, task)?;
    run_schedule(alloc, &task, read.1.conf, &read.0, &read.1.events, output)
}

// The filter, with the words of RAM that are shared in the run by an order, if the task asks for them.
fn share_drive<'a>(
    alloc: Global,
    task: &TraceTask<'_>,
    machine: &Machine,
    options: Drive<'_>,
    read: &Inputs,
    filter: LineFilter,
) -> Result<LineFilter, Fault<'a>>
    requires { order_fault options.order ≡ None }
    ensures ok { IfOk result (λ w. (w ≡ with_shared filter w.shared)
        × IsSharedIf task.now read.now.first.conf.ram machine.now.state
        (GoesAll (rules_of options.entry read.now.keys.items) options.entry.events
        read.now.first.events) w.shared) }
    ensures err { IfErr result (λ fault. fault ≡ Memory) }
{
    if !task.shared {
        return Ok(LineFilter {
            shared: None,
            ..filter
        });
    }
    let words = (read.first.conf.ram / 4) as usize;
    let shared = shared_in_drive(alloc, machine, options, read, words, task.from, task.count)?;
    Ok(LineFilter {
        shared: Some(shared),
        ..filter
    })
}

// Boots a file, and prints the lines of its run by an order.
fn run_drive<'a, O: Write>(
    alloc: Global,
    task: &TraceTask<'a>,
    options: Drive<'_>,
    read: &Inputs,
    output: &mut O,
) -> Result<RunStop, Fault<'a>>
    requires { order_fault options.order ≡ None }
    ensures ok { IfOk result (PrintsRun task.now read.now.first.conf read.now.file.items
        (GoesAll (rules_of options.entry read.now.keys.items) options.entry.events read.now.first.events)
        (O.contents output.old) (O.contents output.new)) }
    ensures err { IfErr result (FailsRun task.now read.now.first.conf read.now.file.items
        (GoesSome (rules_of options.entry read.now.keys.items) options.entry.events read.now.first.events)
        (GoesAll (rules_of options.entry read.now.keys.items) options.entry.events read.now.first.events)
        (O.contents output.old) (O.contents output.new)) }
{
    let conf = read.first.conf;
    let mut machine = boot_machine(alloc, &read.file, conf)?;
    let filter = LineFilter::of(alloc, task, conf.ram, &read.file)?;
    let filter = share_drive(alloc, task, &machine, options, read, filter)?;
    print_drive(alloc, &mut machine, options, read, filter, output)
}

// Prints the lines of a run by an order.
fn trace_driven<'a, F: FileSource, O: Write>(
    alloc: Global,
    files: &mut F,
    output: &mut O,
    task: TraceTask<'a>,
    options: Drive<'a>,
) -> Result<RunStop, Fault<'a>>
    requires drive { task.drive ≡ Some options }
    requires limits { order_fault options.order ≡ None }
    ensures ok { IfOk result (λ stop. (input : Option (List ℕ)) → IsTraced task.entry
        (F.known files.old) (image_file (F.known files.old) task.entry.image.now)
        (streams input input (O.contents output.old) (O.contents output.new)) stop) }
    ensures fault { IfErr result (λ fault. (input : Option (List ℕ)) → IsTraceFault task.entry
        (F.known files.old) (image_file (F.known files.old) task.entry.image.now)
        (streams input input (O.contents output.old) (O.contents output.new)) fault) }
    ensures asks { AsksFor (order_files task.entry.image.now options.entry) result (F.asked files.old)
        (F.asked files.new) }
{
    let read = read_inputs(alloc, files, task.image, task.size, options)?;
    run_drive(alloc, &task, options, &read, output)
}
