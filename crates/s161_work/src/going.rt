//! The tasks that write as they go on.

ghost use Rattle.std.specs.Prelude.{◌≡◌, ◌≢◌, ◌≤◌, ℕ, IfErr, IfOk, IfSome, List, None, Option};
ghost use Rattle.m161_order.specs.Order.{order_fault};
ghost use Rattle.s161_base.specs.Asked.{AsksFor, IsBeforeInput, image_files};
ghost use Rattle.s161_command.specs.Commands.{HasSourceLimits};
ghost use Rattle.s161_debug.specs.Debugs.{debug_files};
ghost use Rattle.s161_debug.specs.Gdb.{gdb_files};
ghost use Rattle.s161_texts.specs.Traces.{trace_files};
ghost use Rattle.s161_work.specs.Failures.{FailsToAnswer, FailsToDebug, FailsToServe, FailsToTrace};
ghost use Rattle.s161_work.specs.Works.{IsDebuggedOut, IsGdbOut, IsServed, IsTracedOut, standard};

use s161_base::fault::Fault;
use s161_base::files::FileSource;
use s161_base::streams::send;
use s161_command::{ConsoleTask, DebugTask, GdbTask, TraceTask};
use s161_debug::debug::debug;
use s161_debug::gdb::gdb;
use s161_run::console::console;
use s161_run::summary::status;
use s161_texts::trace::trace;
use std::alloc::Global;
use std::io::{Read, Write};

/// Runs a kernel at the terminal, and says on standard error why it stopped. Returns the exit status.
pub(crate) fn serve<'a, F: FileSource, I: Read, O: Write, E: Write>(
    alloc: Global,
    task: ConsoleTask<'a>,
    files: &mut F,
    input: &mut I,
    output: &mut O,
    errors: &mut E,
) -> Result<u8, Fault<'a>>
    requires { order_fault task.drive.order ≡ None }
    ensures served { IfOk result (IsServed task.entry (F.known files.old)
        (standard (I.remaining input.old) (O.contents output.old) (E.contents errors.old))
        (standard (I.remaining input.new) (O.contents output.new) (E.contents errors.new))) }
    ensures fault { IfErr result (FailsToServe task.entry (F.known files.old)
        (standard (I.remaining input.old) (O.contents output.old) (E.contents errors.old))
        (standard (I.remaining input.new) (O.contents output.new) (E.contents errors.new))) }
    ensures asks { AsksFor (image_files task.entry.image.now) result (F.asked files.old)
        (F.asked files.new) }
    ensures before { IfErr result (λ fault. IsBeforeInput fault (I.remaining input.old)
        (I.remaining input.new)) }
    ensures within { IfOk result (λ status. (status ≤ 5) × (status ≢ 2)) }
{
    let stop = console(alloc, files, input, output, task)?;
    let line = format!(in alloc; "{stop}\n")?;
    send(errors, line.as_bytes())?;
    Ok(status(stop))
}

/// Traces a run. Returns the exit status.
pub(crate) fn trace_out<'a, F: FileSource, I: Read, O: Write>(
    alloc: Global,
    task: TraceTask<'a>,
    files: &mut F,
    input: &mut I,
    output: &mut O,
) -> Result<u8, Fault<'a>>
    requires { IfSome task.drive (λ drive. order_fault drive.order ≡ None) }
    ensures traced { (errors : Option (List ℕ)) → IfOk result (IsTracedOut task.entry (F.known files.old)
        (standard (I.remaining input.old) (O.contents output.old) errors)
        (standard (I.remaining input.new) (O.contents output.new) errors)) }
    ensures fault { (errors : Option (List ℕ)) → IfErr result (FailsToTrace task.entry (F.known files.old)
        (standard (I.remaining input.old) (O.contents output.old) errors)
        (standard (I.remaining input.new) (O.contents output.new) errors)) }
    ensures asks { AsksFor (trace_files task.entry) result (F.asked files.old)
        (F.asked files.new) }
    ensures before { IfErr result (λ fault. IsBeforeInput fault (I.remaining input.old)
        (I.remaining input.new)) }
    ensures within { IfOk result (λ status. (status ≤ 5) × (status ≢ 2)) }
{
    let stop = trace(alloc, files, input, output, task)?;
    Ok(status(stop))
}

/// Answers a debugger's commands, with notes on standard error. Returns the exit status.
pub(crate) fn debug_out<'a, F: FileSource, I: Read, O: Write, E: Write>(
    alloc: Global,
    task: DebugTask<'a>,
    files: &mut F,
    input: &mut I,
    output: &mut O,
    errors: &mut E,
) -> Result<u8, Fault<'a>>
    requires { HasSourceLimits task.source }
    ensures debugged { IfOk result (IsDebuggedOut task.entry (F.known files.old)
        (standard (I.remaining input.old) (O.contents output.old) (E.contents errors.old))
        (standard (I.remaining input.new) (O.contents output.new) (E.contents errors.new))) }
    ensures fault { IfErr result (FailsToDebug task.entry (F.known files.old)
        (standard (I.remaining input.old) (O.contents output.old) (E.contents errors.old))
        (standard (I.remaining input.new) (O.contents output.new) (E.contents errors.new))) }
    ensures asks { AsksFor (debug_files task.entry) result (F.asked files.old)
        (F.asked files.new) }
    ensures before { IfErr result (λ fault. IsBeforeInput fault (I.remaining input.old)
        (I.remaining input.new)) }
    ensures within { IfOk result (λ status. status ≡ 0) }
{
    debug(alloc, files, input, output, errors, task)?;
    Ok(0)
}

/// Answers a client of GDB's protocol. Returns the exit status.
pub(crate) fn gdb_out<'a, F: FileSource, I: Read, O: Write>(
    alloc: Global,
    task: GdbTask<'a>,
    files: &mut F,
    input: &mut I,
    output: &mut O,
) -> Result<u8, Fault<'a>>
    requires { HasSourceLimits task.source }
    ensures answered { (errors : Option (List ℕ)) → IfOk result (IsGdbOut task.entry (F.known files.old)
        (standard (I.remaining input.old) (O.contents output.old) errors)
        (standard (I.remaining input.new) (O.contents output.new) errors)) }
    ensures fault { (errors : Option (List ℕ)) → IfErr result (FailsToAnswer task.entry (F.known files.old)
        (standard (I.remaining input.old) (O.contents output.old) errors)
        (standard (I.remaining input.new) (O.contents output.new) errors)) }
    ensures asks { AsksFor (gdb_files task.entry) result (F.asked files.old)
        (F.asked files.new) }
    ensures before { IfErr result (λ fault. IsBeforeInput fault (I.remaining input.old)
        (I.remaining input.new)) }
    ensures within { IfOk result (λ status. status ≡ 0) }
{
    gdb(alloc, files, input, output, task)?;
    Ok(0)
}
