//! The work of a command line.

ghost use Rattle.std.specs.Prelude.{◌≡◌, ◌≢◌, ◌≤◌, IfErr, IfOk, map, string_bytes};
ghost use Rattle.s161_base.specs.Asked.{AsksFor, IsBeforeInput};
ghost use Rattle.s161_command.specs.Commands.{HasLimits};
ghost use Rattle.s161_work.specs.Failures.{EndsBadly, FailsAs, IsReported};
ghost use Rattle.s161_work.specs.Works.{Finishes, Follows, IsDone, Rejects, file_use, files_of, going_of, standard};

use crate::going::{debug_out, gdb_out, serve, trace_out};
use crate::printing::print_task;
use crate::refusing::refuse;
use s161_base::fault::Fault;
use s161_base::files::FileSource;
use s161_base::report::report;
use s161_command::{Task, never_words, parse};
use s161_progress::Progress;
use std::alloc::Global;
use std::convert::AsStr;
use std::io::{Read, Write};
use std::sync::Wait;
use std::thread::Threads;

/// The whole program: does the work of a command line, or reports the fault of reading its words, and
/// counts how far long work is. Returns the exit status.
pub fn start<A, F, I, O, E>(
    rt: &A,
    words: Result<Vec<String>, Fault<'static>>,
    files: &mut F,
    input: &mut I,
    output: &mut O,
    errors: &mut E,
    progress: &Progress,
) -> u8
where
    A: AllocGlobal + Threads + Wait + Sync,
    F: FileSource,
    I: Read,
    O: Write,
    E: Write,
    ensures rejected { result ≡ 2 → IfOk words.entry (λ ws. Rejects (map string_bytes ws.items)
        (file_use (F.known files.old) (F.asked files.old) (F.asked files.new))
        (standard (I.remaining input.old) (O.contents output.old) (E.contents errors.old))
        (standard (I.remaining input.new) (O.contents output.new) (E.contents errors.new))) }
    ensures finished { IsDone result → IfOk words.entry (λ ws. Follows (map string_bytes ws.items)
        (file_use (F.known files.old) (F.asked files.old) (F.asked files.new))
        (standard (I.remaining input.old) (O.contents output.old) (E.contents errors.old))
        (standard (I.remaining input.new) (O.contents output.new) (E.contents errors.new)) result) }
    ensures failed { result ≡ 1 → IfOk words.entry (λ ws. EndsBadly (map string_bytes ws.items)
        (file_use (F.known files.old) (F.asked files.old) (F.asked files.new))
        (standard (I.remaining input.old) (O.contents output.old) (E.contents errors.old))
        (standard (I.remaining input.new) (O.contents output.new) (E.contents errors.new))) }
    ensures unread { IfErr words.entry (λ _. result ≡ 1) }
    ensures told { IfErr words.entry (λ fault. (F.asked files.new ≡ F.asked files.old)
        × (I.remaining input.new ≡ I.remaining input.old)
        × (O.contents output.new ≡ O.contents output.old)
        × IsReported fault (E.contents errors.old) (E.contents errors.new)) }
    ensures within { result ≤ 6 }
{
    match words {
        Ok(words) => work(rt, words.as_slice(), files, input, output, errors, progress),
        Err(unread) => report(unread, errors),
    }
}

/// Does the work of a command line, and counts how far long work is. Returns the exit status: 0 for a
/// finished demo, schedule, debug, gdb, as or dis, a machine that switched itself off, a log that agrees, a
/// clean run, search or exploration, or help; 1 for a fault, or a refused event of a run; 2 for a command
/// line that isn't followed; 3 if the schedule, the events or the Steps of the threads ended; 4 for a log
/// that differs, a stale use, a run that goes wrong in a search or an exploration, or a conflict that
/// switched a strict machine off; 5 if a policy is stuck; 6 if an exploration finds more states than it
/// may. The output is complete in memory before it is written, but for that of `console`, `trace`, `debug`
/// and `gdb`.
pub fn work<A, S, F, I, O, E>(
    rt: &A,
    words: &[S],
    files: &mut F,
    input: &mut I,
    output: &mut O,
    errors: &mut E,
    progress: &Progress,
) -> u8
where
    A: AllocGlobal + Threads + Wait + Sync,
    S: AsStr,
    F: FileSource,
    I: Read,
    O: Write,
    E: Write,
    ensures rejected { result ≡ 2 → Rejects (map S.text words.now)
        (file_use (F.known files.old) (F.asked files.old) (F.asked files.new))
        (standard (I.remaining input.old) (O.contents output.old) (E.contents errors.old))
        (standard (I.remaining input.new) (O.contents output.new) (E.contents errors.new)) }
    ensures finished { IsDone result → Follows (map S.text words.now)
        (file_use (F.known files.old) (F.asked files.old) (F.asked files.new))
        (standard (I.remaining input.old) (O.contents output.old) (E.contents errors.old))
        (standard (I.remaining input.new) (O.contents output.new) (E.contents errors.new)) result }
    ensures failed { result ≡ 1 → EndsBadly (map S.text words.now)
        (file_use (F.known files.old) (F.asked files.old) (F.asked files.new))
        (standard (I.remaining input.old) (O.contents output.old) (E.contents errors.old))
        (standard (I.remaining input.new) (O.contents output.new) (E.contents errors.new)) }
    ensures within { result ≤ 6 }
{
    let alloc = rt.alloc();
    let task = match parse(alloc, words) {
        Ok(task) => task,
        Err(rejection) => return refuse(alloc, rejection, output, errors),
    };
    let never = match never_words(alloc, words) {
        Ok(never) => never,
        Err(_) => return report(Fault::Memory, errors),
    };
    match do_task(
        rt, alloc, task, &never, files, input, output, errors, progress,
    ) {
        Ok(status) => status,
        Err(fault) => report(fault, errors),
    }
}

// Does a task, with the words for the addresses of `--never`. Returns the exit status.
fn do_task<'a, R: Threads + Wait + Sync, F: FileSource, I: Read, O: Write, E: Write>(
    rt: &R,
    alloc: Global,
    task: Task<'a>,
    never: &[&'a str],
    files: &mut F,
    input: &mut I,
    output: &mut O,
    errors: &mut E,
    progress: &Progress,
) -> Result<u8, Fault<'a>>
    requires { HasLimits task }
    ensures finished { IfOk result (Finishes (map (λ word. word.now) never.now) task.entry (F.known files.old)
        (standard (I.remaining input.old) (O.contents output.old) (E.contents errors.old))
        (standard (I.remaining input.new) (O.contents output.new) (E.contents errors.new))) }
    ensures fault { IfErr result (FailsAs (going_of task.entry) (map (λ word. word.now) never.now) task.entry (F.known files.old)
        (standard (I.remaining input.old) (O.contents output.old) (E.contents errors.old))
        (standard (I.remaining input.new) (O.contents output.new) (E.contents errors.new))) }
    ensures asks { AsksFor (files_of task.entry) result (F.asked files.old) (F.asked files.new) }
    ensures before { IfErr result (λ fault. IsBeforeInput fault (I.remaining input.old)
        (I.remaining input.new)) }
    ensures within { IfOk result (λ status. (status ≤ 6) × (status ≢ 2)) }
{
    match task {
        Task::Console(task) => serve(alloc, task, files, input, output, errors),
        Task::Trace(task) => trace_out(alloc, task, files, input, output),
        Task::Debug(task) => debug_out(alloc, task, files, input, output, errors),
        Task::Gdb(task) => gdb_out(alloc, task, files, input, output),
        Task::Demo
        | Task::Run(_)
        | Task::RunInThreads(_)
        | Task::RunDriven(_)
        | Task::Schedule(_)
        | Task::Search(_)
        | Task::Explore(_)
        | Task::Replay(_)
        | Task::Audit(_)
        | Task::Assemble(_)
        | Task::Disassemble(_) => print_task(
            rt, alloc, task, never, files, input, output, errors, progress,
        ),
    }
}
