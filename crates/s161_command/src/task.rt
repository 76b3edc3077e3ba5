//! The tasks that a command line can ask for.

use crate::class::DelayClass;
use crate::drive::{Clash, Drive};
use clap::Error;
use m161_isa::LinkUnit;

/// The task of a command line.
#[derive(Clone, Copy)]
pub enum Task<'a> {
    /// Run the built-in image.
    Demo,
    /// Run an image under a schedule.
    Run(RunTask<'a>),
    /// Run an image in threads.
    RunInThreads(ThreadsTask<'a>),
    /// Run an image by a policy.
    RunDriven(DrivenTask<'a>),
    /// Print the events that a policy chooses, as a schedule.
    Schedule(ScheduleTask<'a>),
    /// Run an image at the terminal.
    Console(ConsoleTask<'a>),
    /// Look for a run that goes wrong, by seeds or by delays.
    Search(SearchTask<'a>),
    /// Look at every state that an image can reach.
    Explore(ExploreTask<'a>),
    /// Print a line for each event of a run.
    Trace(TraceTask<'a>),
    /// Replay an image against a log.
    Replay(ReplayTask<'a>),
    /// Debug an image under a list of events.
    Debug(DebugTask<'a>),
    /// Serve GDB on an image under a list of events.
    Gdb(GdbTask<'a>),
    /// Look for stale uses of an image's run under a schedule, by the watches of a text.
    Audit(FilesTask<'a>),
    /// Assemble a text into its file.
    Assemble(AssemblyTask),
    /// List the instructions of an image.
    Disassemble(ListingTask<'a>),
}

/// The size of the machine that is asked for.
#[derive(Clone, Copy)]
pub struct Size {
    /// Bytes of RAM.
    pub ram: u32,
    /// Processors.
    pub processors: u32,
    /// Entries that the log keeps.
    pub log: u32,
    /// What `ll` links a processor to.
    pub link: LinkUnit,
    /// Whether the machine is strict.
    pub strict: bool,
}

/// What `run` prints.
#[derive(Clone, Copy, Debug, PartialEq, Eq)]
pub enum Shown {
    /// The console's output, each started processor, and why the run stopped.
    Summary,
    /// The same, with the log before the last line.
    SummaryAndLog,
    /// The log alone; why the run stopped goes to standard error.
    Log,
    /// The bytes that the console sent alone; why the run stopped goes to standard error.
    Output,
}

/// The arguments of `run`.
#[derive(Clone, Copy)]
pub struct RunTask<'a> {
    /// The image's name.
    pub image: &'a str,
    /// The machine's size.
    pub size: AskedSize,
    /// What is printed.
    pub shown: Shown,
    /// Whether the traps are counted, by processor and code.
    pub traps: bool,
}

/// The arguments of `run` in threads.
#[derive(Clone, Copy)]
pub struct ThreadsTask<'a> {
    /// Those of any run.
    pub run: RunTask<'a>,
    /// How many Steps each thread makes.
    pub quota: u32,
    /// How many of them it makes at most before another thread may go on.
    pub burst: u32,
}

/// The arguments of `run` by a policy.
#[derive(Clone, Copy)]
pub struct DrivenTask<'a> {
    /// Those of any run.
    pub run: RunTask<'a>,
    /// What the driven run is asked for.
    pub drive: Drive<'a>,
}

/// The arguments of `schedule`.
#[derive(Clone, Copy)]
pub struct ScheduleTask<'a> {
    /// The image's name.
    pub image: &'a str,
    /// The machine's size.
    pub size: AskedSize,
    /// What the driven run is asked for.
    pub drive: Drive<'a>,
}

/// The arguments of `console`.
#[derive(Clone, Copy)]
pub struct ConsoleTask<'a> {
    /// The image's name.
    pub image: &'a str,
    /// The machine's size.
    pub size: Size,
    /// What the driven run is asked for. It has no file of keys: they come from standard input.
    pub drive: Drive<'a>,
}

/// The arguments of `search`.
#[derive(Clone, Copy)]
pub struct SearchTask<'a> {
    /// The image's name.
    pub image: &'a str,
    /// The machine's size.
    pub size: AskedSize,
    /// What each driven run is asked for; the order's seed is that of the first one. With `delays`
    /// its order is that of turns without a delay.
    pub drive: Drive<'a>,
    /// Which delays the runs may have, in place of seeds.
    pub delays: Option<DelayClass>,
    /// How many seeds are tried, at least 1; 0 with `delays`.
    pub seeds: u32,
    /// Among how many threads the runs are parted, 1 to 64.
    pub jobs: u32,
    /// The name of the watches' file, if there is one.
    pub watches: Option<&'a str>,
    /// The name of the file whose bytes the console should send, if there is one.
    pub output: Option<&'a str>,
    /// How many states may be looked at behind a run to find that it hangs; 0: none are.
    pub hung: u32,
    /// Whether a schedule that is found stays as it is, and isn't shortened.
    pub whole: bool,
}

/// The arguments of `explore`.
#[derive(Clone, Copy)]
pub struct ExploreTask<'a> {
    /// The image's name.
    pub image: &'a str,
    /// The machine's size.
    pub size: Size,
    /// The name of the file whose bytes are typed, if there is one.
    pub keys: Option<&'a str>,
    /// The name of the watches' file, if there is one.
    pub watches: Option<&'a str>,
    /// The name of the file whose bytes the console should send, if there is one.
    pub output: Option<&'a str>,
    /// How many states there may be; 0 is no number that is asked for.
    pub states: u32,
}

/// How registers are shown in instructions.
#[derive(Clone, Copy, Debug, PartialEq, Eq)]
pub enum Registers {
    /// By their numbers: `$8`.
    Numbered,
    /// By their names in assembly: `$t0`.
    Named,
}

/// The arguments of `trace`.
#[derive(Clone, Copy)]
pub struct TraceTask<'a> {
    /// The image's name.
    pub image: &'a str,
    /// The machine's size.
    pub size: AskedSize,
    /// The number of the first event that has a line.
    pub from: u64,
    /// How many events have a line, from that one on.
    pub count: u64,
    /// How registers are shown.
    pub registers: Registers,
    /// Whether addresses are shown by the names of the image's symbol table.
    pub symbols: bool,
    /// The processor whose Steps alone have lines, if there is one.
    pub only: Option<u32>,
    /// The address or the name of a byte of RAM: only Steps that load or store its word have lines.
    pub touches: Option<&'a str>,
    /// Whether only events have lines that trap, are idle, or stop the machine.
    pub outcomes: bool,
    /// Whether only Steps have lines that load or store a word which processors share.
    pub shared: bool,
    /// Whether a line shows the word that its Step loads.
    pub loads: bool,
    /// What the driven run is asked for; without it a schedule is read.
    pub drive: Option<Drive<'a>>,
}

/// Where the events of a run come from that is debugged, or served to GDB.
#[derive(Clone, Copy)]
pub enum Source<'a> {
    /// A schedule's or a log's file, by its name.
    File(&'a str),
    /// A driven run.
    Driven(Drive<'a>),
}

/// The arguments of `debug`.
#[derive(Clone, Copy)]
pub struct DebugTask<'a> {
    /// The image's name.
    pub image: &'a str,
    /// Where the events come from.
    pub source: Source<'a>,
    /// The machine's size.
    pub size: AskedSize,
    /// How registers of instructions are shown.
    pub registers: Registers,
    /// Whether addresses are shown by the names of the image's symbol table.
    pub symbols: bool,
}

/// The arguments of `gdb`.
#[derive(Clone, Copy)]
pub struct GdbTask<'a> {
    /// The image's name.
    pub image: &'a str,
    /// Where the events come from.
    pub source: Source<'a>,
    /// The machine's size.
    pub size: AskedSize,
}

/// The arguments of `as`.
#[derive(Clone, Copy)]
pub struct AssemblyTask {
    /// Whether the file has a table of the labels.
    pub symbols: bool,
}

/// The arguments of `dis`.
#[derive(Clone, Copy)]
pub struct ListingTask<'a> {
    /// The image's name.
    pub image: &'a str,
    /// How registers are shown.
    pub registers: Registers,
    /// Whether addresses are shown by the names of the image's symbol table.
    pub symbols: bool,
}

/// The size of the machine that is asked for over a list of events, which may say what isn't given: a log
/// in its machine line and its first line, a schedule in its machine line.
#[derive(Clone, Copy)]
pub struct AskedSize {
    /// Bytes of RAM, if they are given.
    pub ram: Option<u32>,
    /// Processors, if they are given.
    pub processors: Option<u32>,
    /// Entries that the log keeps.
    pub log: u32,
    /// What `ll` links a processor to, if it is given. `replay` has it from its log alone.
    pub link: Option<LinkUnit>,
    /// Whether a strict machine is asked for. `replay` has it from its log alone.
    pub strict: bool,
}

/// The arguments of `replay`.
#[derive(Clone, Copy)]
pub struct ReplayTask<'a> {
    /// The image's name.
    pub image: &'a str,
    /// The name of the log's file.
    pub text: &'a str,
    /// The machine's size.
    pub size: AskedSize,
}

/// Why the words of a command line have no task.
#[derive(Drop)]
pub enum Rejection {
    /// clap doesn't take them.
    Words(Error),
    /// clap takes them, and their options can't be followed.
    Options(Clash),
}

/// The arguments of a command over an image and a text.
#[derive(Clone, Copy)]
pub struct FilesTask<'a> {
    /// The image's name.
    pub image: &'a str,
    /// The name of the text's file.
    pub text: &'a str,
    /// The machine's size.
    pub size: AskedSize,
}
