//! Command lines, and what the program writes.

use super::same;
use super::streams::{FREE, Left, Memory, NoFiles, all};
use m161_elf::{LoadError, OutsideRam};
use m161_machine::BootError;
use s161_base::fault::{Fault, Unloaded, Unread, fault_of_boot};
use s161_progress::Progress;
use s161_work::work::{start, work};
use std::process::Abort;
use std::sync::Wait;
use std::test::Fail;
use std::thread::Threads;

/// What the demo prints.
const DEMO: &str = "cpu 0 running pc 8000021c
r0 00000000 r1 00000000 r2 00000000 r3 00000000
r4 00000000 r5 00000000 r6 00000000 r7 00000000
r8 12345678 r9 ffffffff r10 12345677 r11 80000000
r12 12345677 r13 00000000 r14 00000000 r15 00000000
r16 00000000 r17 00000000 r18 00000000 r19 00000000
r20 00000000 r21 00000000 r22 00000000 r23 00000000
r24 00000000 r25 00000000 r26 00000000 r27 00000000
r28 00000000 r29 00000000 r30 00000000 r31 00000000
hi 00000000 lo 00000000
";

/// What clap writes on standard output for `--help`.
const HELP: &str = "A proved emulator of System/161

Usage: s161 <COMMAND>

Commands:
  demo      Makes seven Steps of the built-in image
  run       Runs an image under a schedule of events, or by an order that chooses them
  console   Runs a kernel at the terminal: its console is standard input and output
  schedule  Prints the events that an order chooses, as a schedule
  search    Looks for a seed whose run goes wrong, and prints a short schedule of it
  explore   Looks at every state that any order of events can reach, for a kernel that is right in each
  trace     Prints a line for each event of a run: the instruction, and what it changed
  replay    Makes a log's events once more, and compares their outcomes
  debug     Does a debugger's commands on an image under a list of events
  gdb       Serves GDB's remote protocol on an image under a list of events
  audit     Looks for a Step that uses a stale row of the TLB, after its shootdown
  as        Assembles a text to an ELF file
  dis       Prints the instructions of an image
  help      Print this message or the help of the given subcommand(s)

Options:
  -h, --help     Print help
  -V, --version  Print version

Exit status:
  0  a finished demo, schedule, debug, gdb, as or dis, a machine that switched
     itself off, a log that agrees, a clean run, search or exploration, or help
  1  a fault, named on standard error, or a refused event of run, trace or
     console
  2  a rejected command line
  3  the schedule, the events or the Steps of the threads ended
  4  a log that differs, a stale use, a run that goes wrong in search or explore,
     or a strict machine that a conflict switched off
  5  no processor can go on, and no byte or key is left
  6  explore found more states than it may
";

/// What clap writes on standard error for the word `foo`.
const USAGE: &str = "error: unrecognized subcommand 'foo'

Usage: s161 <COMMAND>

For more information, try '--help'.
";

/// The line of an output that fails.
const FAILED: &str = "s161: output\n";

/// Does what a command line says, over streams with room for some bytes, against the texts that
/// they should begin.
fn run(
    rt: &(impl AllocGlobal + Threads + Wait + Sync),
    words: &[&str],
    texts: [&str; 2],
    room: [usize; 2],
    fails: bool,
) -> Left {
    let mut input: &[u8] = &[];
    let mut output = Memory::new(rt.alloc(), room[0], fails);
    let mut errors = Memory::new(rt.alloc(), room[1], fails);
    let status = work(
        rt,
        words,
        &mut NoFiles,
        &mut input,
        &mut output,
        &mut errors,
        &Progress::new(),
    );
    (
        status,
        output.match_text(texts[0]),
        errors.match_text(texts[1]),
    )
}

#[test]
fn demo(rt: HostRuntime) {
    let found = run(&rt, &["s161", "demo"], [DEMO, ""], FREE, true);
    same(&rt, found, (0, all(DEMO), all("")));
}

// The demo's output after each number of bytes: an error, or no byte without an error.
fn check_output(rt: &(impl Abort + AllocGlobal + Threads + Wait + Sync), fails: bool) {
    for room in 0..DEMO.len() {
        let rooms = [room, usize::MAX];
        let found = run(rt, &["s161", "demo"], [DEMO, FAILED], rooms, fails);
        same(rt, found, (1, (room, true), all(FAILED)));
    }
}

#[test]
fn failing_output(rt: HostRuntime) {
    check_output(&rt, true);
}

#[test]
fn full_output(rt: HostRuntime) {
    check_output(&rt, false);
}

#[test]
fn both_outputs_fail(rt: HostRuntime) {
    for (fails, room) in [(true, 0), (false, 0), (true, 3), (false, 3)] {
        let found = run(&rt, &["s161", "demo"], [DEMO, FAILED], [26, room], fails);
        same(&rt, (fails, found), (fails, (1, (26, true), (room, true))));
    }
}

#[test]
fn rejected_command_lines(rt: HostRuntime) {
    let found = run(&rt, &["s161", "--help"], [HELP, ""], FREE, true);
    same(&rt, found, (0, all(HELP), all("")));
    let found = run(&rt, &["s161", "foo"], ["", USAGE], FREE, true);
    same(&rt, found, (2, all(""), all(USAGE)));
    let cases: [&[&str]; 2] = [&["s161"], &["s161", "demo", "x"]];
    for words in cases {
        let (status, output, _) = run(&rt, words, ["", ""], FREE, true);
        same(&rt, (words, status, output), (words, 2, all("")));
    }
}

#[test]
fn failing_rejections(rt: HostRuntime) {
    for fails in [true, false] {
        for room in 0..HELP.len() {
            let rooms = [room, usize::MAX];
            let found = run(&rt, &["s161", "--help"], [HELP, FAILED], rooms, fails);
            same(&rt, found, (1, (room, true), all(FAILED)));
        }
        for room in 0..USAGE.len() {
            let rooms = [usize::MAX, room];
            let found = run(&rt, &["s161", "foo"], ["", USAGE], rooms, fails);
            same(&rt, found, (1, all(""), (room, true)));
        }
    }
}

/// Why options that clap takes can't be followed.
const CLASH: &str = "error: an order is wanted: --turns N or --random SEED

For more information, try '--help'.
";

#[test]
fn clashing_options(rt: HostRuntime) {
    let words: &[&str] = &["s161", "schedule", "x"];
    let found = run(&rt, words, ["", CLASH], FREE, true);
    same(&rt, found, (2, all(""), all(CLASH)));
    for room in [0, CLASH.len() - 1] {
        let rooms = [usize::MAX, room];
        let found = run(&rt, words, ["", CLASH], rooms, true);
        same(&rt, found, (1, all(""), (room, true)));
    }
}

/// Starts the program on words that were read, or weren't.
fn start_on(
    rt: &(impl AllocGlobal + Threads + Wait + Sync),
    words: Result<Vec<String>, Fault<'static>>,
    texts: [&str; 2],
) -> Left {
    let mut input: &[u8] = &[];
    let mut output = Memory::new(rt.alloc(), usize::MAX, true);
    let mut errors = Memory::new(rt.alloc(), usize::MAX, true);
    let status = start(
        rt,
        words,
        &mut NoFiles,
        &mut input,
        &mut output,
        &mut errors,
        &Progress::new(),
    );
    (
        status,
        output.match_text(texts[0]),
        errors.match_text(texts[1]),
    )
}

#[test]
fn starts(rt: HostRuntime) -> Result<(), Fail> {
    let mut words = Vec::new(rt.alloc());
    words.push(String::from_str(rt.alloc(), "s161")?)?;
    words.push(String::from_str(rt.alloc(), "demo")?)?;
    let found = start_on(&rt, Ok(words), [DEMO, ""]);
    same(&rt, found, (0, all(DEMO), all("")));
    for &(fault, line) in &[
        (
            Fault::Word,
            "s161: input (a word of the command line isn't UTF-8)\n",
        ),
        (Fault::Memory, "s161: memory\n"),
    ] {
        let found = start_on(&rt, Err(fault), ["", line]);
        same(&rt, found, (1, all(""), all(line)));
    }
    Ok(())
}

/// A machine outside the limits.
const CONF_LINE: &str =
    "s161: conf (RAM has 1 to 4096 pages of 4096 bytes, there are 1 to 32 processors, and a log has 1 to 16777216 entries)";

#[test]
fn fault_texts(rt: HostRuntime) -> Result<(), Fail> {
    for (fault, text) in [
        (
            Fault::File("a.elf", Unread::Failed),
            "s161: file a.elf (the file can't be read)",
        ),
        (
            Fault::File("a (b)\\\n\x7f", Unread::NotUtf8),
            "s161: file a \\x28b)\\x5c\\x0a\\x7f (the file isn't UTF-8)",
        ),
        (
            Fault::Schedule(12),
            "s161: schedule line 12 (a line is s P, s P N, k HH, o, blank or # ..)",
        ),
        (
            Fault::Log(3),
            "s161: log line 3 (after m161 log 2 word, m161 log 2 line or m161 log 1 a line is s P ran, s P trap CODE VECTOR, s P idle, s P off, k HH taken or o taken; after m161 log 3 word strict or m161 log 3 line strict also s P conflict I J)",
        ),
        (Fault::Conf, CONF_LINE),
        (
            Fault::Image(Unloaded::Load(LoadError::Truncated)),
            "s161: image 1 Truncated (the file is shorter than an ELF header)",
        ),
        (Fault::Memory, "s161: memory"),
        (
            Fault::Input(Unread::TooLong),
            "s161: input (at most 402653184 bytes are read)",
        ),
        (Fault::Output, "s161: output"),
        (fault_of_boot(BootError::BadConf, &[], 4096), CONF_LINE),
        (
            fault_of_boot(BootError::Load(LoadError::BadEntry), &[], 4096),
            "s161: image 9 BadEntry (the entry isn't a multiple of 4 in RAM, by kseg0 or by kseg1)",
        ),
        (
            Fault::Image(Unloaded::Segment(OutsideRam {
                header: 65_534,
                size: 4_294_967_295,
                address: 0x0abc_def0,
                ram: 16_777_216,
            })),
            "s161: image 7 SegmentOutsideRam (program header 65534, 4294967295 bytes from 0abcdef0 on, not all in RAM of 16777216 bytes in kseg0 or kseg1)",
        ),
        (
            fault_of_boot(BootError::NoMemory, &[], 4096),
            "s161: memory",
        ),
    ] {
        let found = format!(in rt.alloc(); "{fault}")?;
        same(&rt, found.as_str(), text);
    }
    Ok(())
}
