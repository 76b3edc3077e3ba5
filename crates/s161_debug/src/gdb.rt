//! Serving GDB on a run.

ghost use Rattle.std.specs.Prelude.{◌≡◌, IfErr, IfOk, OnOk};
ghost use Rattle.s161_command.specs.Commands.{HasSourceLimits};
ghost use Rattle.s161_base.specs.Asked.{AsksFor};
ghost use Rattle.s161_base.specs.Samples.{image_file};
ghost use Rattle.s161_base.specs.Streams.{streams};
ghost use Rattle.s161_debug.specs.Gdb.{IsGdb, IsGdbFault, gdb_files, told_as};

use crate::opening::{Prepared, open_run};
use m161::{Console, Tlb};
use m161_server::{ServerFault, serve};
use s161_base::fault::{Fault, Unread};
use s161_base::files::FileSource;
use s161_command::GdbTask;
use std::alloc::{AllocError, Global};
use std::io::{Read, Write};

// The run that a client goes along.
type Replay = m161_replay::Replay<Tlb, Console>;

// The run of a machine that was just booted, at its beginning.
fn replay_of(alloc: Global, opened: Prepared) -> Result<Replay, AllocError>
    ensures { IfOk result (λ replay. replay
        ≡ record { start = opened.machine.state; events = opened.events.items; place = 0 }) }
{
    let core = opened.machine.core().copy(alloc)?;
    Replay::new(alloc, core, opened.events)
}

// A fault of a session, as the program tells it.
fn told_as<'a>(fault: ServerFault<AllocError>) -> Fault<'a>
    ensures { result ≡ told_as fault }
{
    match fault {
        ServerFault::Input => Fault::Input(Unread::Failed),
        ServerFault::Output => Fault::Output,
        ServerFault::Memory | ServerFault::Run(_) => Fault::Memory,
    }
}

/// Reads the image and then the file of the events, or the files of the order that chooses them, and
/// boots the image, all as `debug` does; then answers the packets of GDB's remote protocol
/// that the input has, until it ends or a packet ends the session. An answer is written and flushed
/// before the next byte is read. The run is that of the task, whatever the packets are.
///
/// # Errors
/// The first fault. What was written stays.
// For LLVM: a stack frame of its own.
#[inline(never)]
pub fn gdb<'a, F: FileSource, I: Read, O: Write>(
    alloc: Global,
    files: &mut F,
    input: &mut I,
    output: &mut O,
    task: GdbTask<'a>,
) -> Result<(), Fault<'a>>
    requires { HasSourceLimits task.source }
    ensures ok { OnOk result (IsGdb task.entry (F.known files.old)
        (image_file (F.known files.old) task.entry.image.now)
        (streams (I.remaining input.old) (I.remaining input.new) (O.contents output.old)
        (O.contents output.new))) }
    ensures fault { IfErr result (IsGdbFault task.entry (F.known files.old)
        (image_file (F.known files.old) task.entry.image.now)
        (streams (I.remaining input.old) (I.remaining input.new) (O.contents output.old)
        (O.contents output.new))) }
    ensures asks { AsksFor (gdb_files task.entry) result (F.asked files.old)
        (F.asked files.new) }
{
    let opened = open_run(alloc, files, task)?;
    let mut replay = replay_of(alloc, opened)?;
    match serve(alloc, &mut replay, input, output) {
        Ok(()) => Ok(()),
        Err(fault) => Err(told_as(fault)),
    }
}
