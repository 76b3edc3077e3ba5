//! The program: a machine from the command line.
//!
//! ```text
//! s161 demo               boots the built-in image, makes seven Steps and prints processor 0's
//!                         registers
//! s161 run IMAGE          boots an ELF file, makes the events of the schedule on standard input,
//!                         and prints the console's output, the started processors and why it
//!                         stopped; with --threads Q each processor has a thread that makes Q Steps,
//!                         and no schedule is read; with an order a policy chooses the events
//! s161 console IMAGE      runs an ELF file by a policy, with the terminal as its console
//! s161 schedule IMAGE     prints the events that a policy chooses
//! s161 search IMAGE       looks for a seed or a list of delays whose run goes wrong, and prints a schedule
//!                         of it
//! s161 explore IMAGE      looks at every state that any order of events can reach
//! s161 replay IMAGE LOG   boots an ELF file, makes the events of a log, and prints whether their
//!                         outcomes are the log's
//! s161 trace IMAGE        prints a line for each event of a run
//! s161 debug IMAGE [FILE] boots an ELF file, and executes debugger commands from standard input over
//!                         the events of a schedule, of a log, or of an order
//! s161 gdb IMAGE [FILE]   answers a client of GDB's protocol, over the same events
//! s161 audit IMAGE WATCHES
//!                         looks for a stale use of the TLB under the schedule on standard input
//! s161 as                 assembles the text on standard input, and writes its ELF file to
//!                         standard output
//! s161 dis IMAGE          prints the instructions of an ELF file's segments
//! ```
//!
//! `s161 --help` says what the exit status is.
//!
//! `main` only collects the arguments and passes the streams to `start`, which does all work over
//! any source of files, reader and writers. Where standard input is a terminal, it is told before a schedule
//! is read from it. Where standard error is one, or `--progress` asks for it, a thread beside a long
//! command shows how far it is.
#![tactic(auto)]

ghost use Rattle.std.specs.Prelude.{◌≡◌, ◌≢◌, ◌⊎◌, IfErr};
ghost use Rattle.std.specs.IoError.{error_kind};

use s161_progress::{Cleared, Meter, Progress, Way};
use s161_work::fault::Fault;
use s161_work::files::HostFiles;
use s161_work::prompt::{Prompted, reads_schedule};
use s161_work::waiting::way_of;
use s161_work::work::start;
use std::io::{ErrorKind, IsTerminal};
use std::process::ExitCode;
use std::{env, io, thread};

fn main(rt: HostRuntime) -> ExitCode {
    let words = arguments(&rt);
    let is_wanted = rt.stdin().is_terminal() && may_read_schedule(&words);
    let mut input = Prompted::new(rt.stdin(), rt.stderr(), is_wanted);
    let way = way_asked(&words, rt.stderr().is_terminal());
    let (progress, meter) = (Progress::new(), Meter::new());
    let shown = way.map(|_way| &meter);
    let mut output = Cleared::new(&rt, shown, rt.stdout(), rt.stderr());
    let mut errors = Cleared::new(&rt, shown, rt.stderr(), rt.stderr());
    let (host, counted, shower) = (&rt, &progress, &meter);
    let status = thread::scope(thread::scope_env(), host, |scope| {
        if let Some(way) = way {
            // Where no thread can be made, nothing is shown.
            let _thread = scope.spawn(move || shower.show(host, &mut host.stderr(), counted, way));
        }
        let status = start(
            host,
            words,
            &mut HostFiles::new(host),
            &mut input,
            &mut output,
            &mut errors,
            counted,
        );
        shower.end(host, &mut host.stderr());
        status
    });
    ExitCode::from(status)
}

// How the command of these words, if they were read, says how far it is.
fn way_asked(words: &Result<Vec<String>, Fault<'static>>, is_terminal: bool) -> Option<Way> {
    match words {
        Ok(words) => way_of(words, is_terminal),
        Err(_) => None,
    }
}

// Whether the words, if they were read, are those of a command that may read a schedule.
fn may_read_schedule(words: &Result<Vec<String>, Fault<'static>>) -> bool {
    match words {
        Ok(words) => reads_schedule(words),
        Err(_) => false,
    }
}

// The words of the command line.
fn arguments(rt: &HostRuntime) -> Result<Vec<String>, Fault<'static>>
    ensures { IfErr result (λ fault. (fault ≡ Fault.Word) ⊎ (fault ≡ Fault.Memory)) }
{
    let words = env::args(rt).map_err(fault_of_words)?;
    Ok(words.collect(rt.alloc())?)
}

// Why the words can't be read: one of them isn't UTF-8, or memory was refused.
fn fault_of_words(error: io::Error) -> Fault<'static>
    ensures word { error_kind error ≡ ErrorKind.InvalidData → result ≡ Fault.Word }
    ensures memory { error_kind error ≢ ErrorKind.InvalidData → result ≡ Fault.Memory }
{
    if error.kind() == ErrorKind::InvalidData {
        Fault::Word
    } else {
        Fault::Memory
    }
}
