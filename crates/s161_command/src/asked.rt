//! What a command asks for, by what clap gives for its arguments.

ghost use Rattle.std.specs.Prelude.{◌≡◌, IfErr, IfOk, None, Some, codes, false, true};
ghost use Rattle.clap.specs.Words.{first_of, found_of, rows_of, subcommand_rows_of};
ghost use Rattle.s161_command.specs.Commands.{AsksAssembly, AsksExplore, AsksFiles, AsksListing, AsksReplay, AsksRun, ClashesIn, GoTogether, HasEntries, HasLimits, HasSourceLimits, IsAskedSize, IsNamedSize, IsSize, IsSource, IsTask, order_use, registers_of, shown_of};
ghost use Rattle.s161_command.specs.Drives.{AsksDriveIf, has_order};
ghost use Rattle.s161_command.specs.Links.{IsLinkIf};
ghost use Rattle.s161_command.specs.declared.drive.OrderUse.TheVariants.{Assumed, Needed, Optional, OrFile, Seeded};
ghost use Rattle.s161_command.specs.helpers.Entries.{LosesEntries};
ghost use Rattle.s161_command.specs.helpers.Settings.{HasPlainSettings, HasSettings, HasSettingsIf};

use crate::class::seeds_given;
use crate::drive::{Clash, Drive, OrderUse, drive_given, has_order};
use crate::given::{file_given, is_set, long_given, number_given, number_if_given, text_given};
use crate::link::link_or_word;
use crate::settings::{Settings, order_use, settings_given};
use crate::task::{
    AskedSize, AssemblyTask, ConsoleTask, DebugTask, DrivenTask, ExploreTask, FilesTask, GdbTask,
    ListingTask, Registers, ReplayTask, RunTask, ScheduleTask, SearchTask, Shown, Size, Source,
    Task, ThreadsTask, TraceTask,
};
use clap::ArgMatches;
use m161_isa::LinkUnit;

// The size of a machine; the log's number of entries has this default.
fn size_given<'a>(given: &ArgMatches<'a>, log: u32, link: Option<LinkUnit>) -> Size
    requires { IsLinkIf (first_of (codes "link") (rows_of (found_of given.now))) link }
    ensures { IsSize log (rows_of (found_of given.now)) result }
{
    Size {
        ram: number_given(given, "ram", 1_048_576),
        processors: number_given(given, "cpus", 1),
        log: number_given(given, "log", log),
        link: link_or_word(link),
        strict: is_set(given, "strict"),
    }
}

// The size of a machine, of which a list of events may say what isn't given; how many entries its own
// log keeps has this default.
fn asked_size_given<'a>(
    given: &ArgMatches<'a>,
    log: u32,
    link: Option<LinkUnit>,
    strict: bool,
) -> AskedSize
    ensures size { IsAskedSize log (rows_of (found_of given.now)) result }
    ensures link { result.link ≡ link }
    ensures strict { result.strict ≡ strict }
{
    AskedSize {
        ram: number_if_given(given, "ram"),
        processors: number_if_given(given, "cpus"),
        log: number_given(given, "log", log),
        link,
        strict,
    }
}

// The same with the mode that is given.
fn named_size_given<'a>(given: &ArgMatches<'a>, log: u32, link: Option<LinkUnit>) -> AskedSize
    requires { IsLinkIf (first_of (codes "link") (rows_of (found_of given.now))) link }
    ensures { IsNamedSize log (rows_of (found_of given.now)) result }
{
    asked_size_given(given, log, link, is_set(given, "strict"))
}

// What `run` is asked to print.
fn shown_given<'a>(given: &ArgMatches<'a>) -> Shown
    ensures { result ≡ shown_of (rows_of (found_of given.now)) }
{
    if is_set(given, "only-output") {
        return Shown::Output;
    }
    if is_set(given, "only-log") {
        return Shown::Log;
    }
    if is_set(given, "show-log") {
        Shown::SummaryAndLog
    } else {
        Shown::Summary
    }
}

// The arguments of `run`.
fn run_given<'a>(given: &ArgMatches<'a>, link: Option<LinkUnit>) -> RunTask<'a>
    requires { IsLinkIf (first_of (codes "link") (rows_of (found_of given.now))) link }
    ensures { AsksRun (rows_of (found_of given.now)) result }
{
    RunTask {
        image: file_given(given, "image"),
        size: named_size_given(given, 65_536, link),
        shown: shown_given(given),
        traps: is_set(given, "traps"),
    }
}

// The task of `run` without an order: under a schedule, or in threads.
fn task_without_order<'a>(given: &ArgMatches<'a>, run: RunTask<'a>) -> Task<'a>
    requires order { has_order (rows_of (found_of given.now)) ≡ false }
    requires run { AsksRun (rows_of (found_of given.now)) run }
    ensures task { IsTask (Some (codes "run", rows_of (found_of given.now))) result }
    ensures limits { HasLimits result }
{
    match number_given(given, "threads", 0) {
        0 => Task::Run(run),
        quota => Task::RunInThreads(ThreadsTask {
            run,
            quota,
            burst: number_given(given, "burst", 1),
        }),
    }
}

// The task of `run`.
fn task_of_run<'a>(given: &ArgMatches<'a>, settings: Settings) -> Task<'a>
    requires { HasSettings Optional (rows_of (found_of given.now)) settings }
    ensures task { IsTask (Some (codes "run", rows_of (found_of given.now))) result }
    ensures limits { HasLimits result }
{
    let run = run_given(given, settings.link);
    if has_order(given) {
        let drive = drive_given(given, OrderUse::Optional, settings);
        Task::RunDriven(DrivenTask { run, drive })
    } else {
        task_without_order(given, run)
    }
}

// The task of `schedule`.
fn task_of_schedule<'a>(given: &ArgMatches<'a>, settings: Settings) -> Task<'a>
    requires { HasSettings Needed (rows_of (found_of given.now)) settings }
    ensures task { IsTask (Some (codes "schedule", rows_of (found_of given.now))) result }
    ensures limits { HasLimits result }
{
    Task::Schedule(ScheduleTask {
        image: file_given(given, "image"),
        size: named_size_given(given, 65_536, settings.link),
        drive: drive_given(given, OrderUse::Needed, settings),
    })
}

// The task of `console`.
fn task_of_console<'a>(given: &ArgMatches<'a>, settings: Settings) -> Task<'a>
    requires { HasSettings Assumed (rows_of (found_of given.now)) settings }
    ensures task { IsTask (Some (codes "console", rows_of (found_of given.now))) result }
    ensures limits { HasLimits result }
{
    Task::Console(ConsoleTask {
        image: file_given(given, "image"),
        size: size_given(given, 65_536, settings.link),
        drive: drive_given(given, OrderUse::Assumed, settings),
    })
}

// The task of `search`.
fn task_of_search<'a>(given: &ArgMatches<'a>, settings: Settings) -> Task<'a>
    requires { HasSettings Seeded (rows_of (found_of given.now)) settings }
    ensures task { IsTask (Some (codes "search", rows_of (found_of given.now))) result }
    ensures limits { HasLimits result }
{
    Task::Search(SearchTask {
        image: file_given(given, "image"),
        size: named_size_given(given, 65_536, settings.link),
        drive: drive_given(given, OrderUse::Seeded, settings),
        delays: settings.delays,
        seeds: seeds_given(given, settings.delays),
        jobs: number_given(given, "jobs", 1),
        watches: text_given(given, "watches"),
        output: text_given(given, "output"),
        hung: number_given(given, "hung", 10_000),
        whole: is_set(given, "whole"),
    })
}

// The arguments of `explore`.
fn explore_task_of<'a>(given: &ArgMatches<'a>, settings: Settings) -> ExploreTask<'a>
    requires { HasPlainSettings (rows_of (found_of given.now)) settings }
    ensures { AsksExplore (rows_of (found_of given.now)) result }
{
    let watches = text_given(given, "watches");
    ExploreTask {
        image: file_given(given, "image"),
        size: size_given(given, 65_536, settings.link),
        keys: text_given(given, "keys"),
        watches,
        output: text_given(given, "output"),
        states: number_given(given, "states", 1_000_000),
    }
}

// The arguments of `replay`.
fn replay_task_of<'a>(given: &ArgMatches<'a>) -> ReplayTask<'a>
    ensures { AsksReplay (rows_of (found_of given.now)) result }
{
    ReplayTask {
        image: file_given(given, "image"),
        text: file_given(given, "entries"),
        size: asked_size_given(given, 65_536, None, false),
    }
}

// How registers are shown.
fn registers_given<'a>(given: &ArgMatches<'a>) -> Registers
    ensures { result ≡ registers_of (rows_of (found_of given.now)) }
{
    if is_set(given, "names") {
        Registers::Named
    } else {
        Registers::Numbered
    }
}

// What a driven run is asked for, if an order is given.
fn drive_if_ordered<'a>(given: &ArgMatches<'a>, settings: Settings) -> Option<Drive<'a>>
    requires { HasSettings Optional (rows_of (found_of given.now)) settings }
    ensures { AsksDriveIf Optional (rows_of (found_of given.now)) result }
{
    if has_order(given) {
        Some(drive_given(given, OrderUse::Optional, settings))
    } else {
        None
    }
}

// The task of `trace`.
fn task_of_trace<'a>(given: &ArgMatches<'a>, settings: Settings) -> Task<'a>
    requires { HasSettings Optional (rows_of (found_of given.now)) settings }
    ensures task { IsTask (Some (codes "trace", rows_of (found_of given.now))) result }
    ensures limits { HasLimits result }
{
    Task::Trace(TraceTask {
        image: file_given(given, "image"),
        size: named_size_given(given, 65_536, settings.link),
        from: long_given(given, "from", 0),
        count: long_given(given, "count", u64::MAX),
        registers: registers_given(given),
        symbols: is_set(given, "symbols"),
        only: number_if_given(given, "only"),
        touches: text_given(given, "touches"),
        outcomes: is_set(given, "outcomes"),
        shared: is_set(given, "shared"),
        loads: is_set(given, "loads"),
        drive: drive_if_ordered(given, settings),
    })
}

// Where the events of a run come from that is debugged, or served to GDB.
fn source_given<'a>(given: &ArgMatches<'a>, settings: Settings) -> Source<'a>
    requires { HasSettings OrFile (rows_of (found_of given.now)) settings }
    ensures source { IsSource (rows_of (found_of given.now)) result }
    ensures limits { HasSourceLimits result }
{
    if has_order(given) {
        Source::Driven(drive_given(given, OrderUse::OrFile, settings))
    } else {
        Source::File(file_given(given, "file"))
    }
}

// The task of `debug`.
fn task_of_debug<'a>(given: &ArgMatches<'a>, settings: Settings) -> Task<'a>
    requires { HasSettings OrFile (rows_of (found_of given.now)) settings }
    ensures task { IsTask (Some (codes "debug", rows_of (found_of given.now))) result }
    ensures limits { HasLimits result }
{
    Task::Debug(DebugTask {
        image: file_given(given, "image"),
        source: source_given(given, settings),
        size: named_size_given(given, 1_048_576, settings.link),
        registers: registers_given(given),
        symbols: is_set(given, "symbols"),
    })
}

// The task of `gdb`.
fn task_of_gdb<'a>(given: &ArgMatches<'a>, settings: Settings) -> Task<'a>
    requires { HasSettings OrFile (rows_of (found_of given.now)) settings }
    ensures task { IsTask (Some (codes "gdb", rows_of (found_of given.now))) result }
    ensures limits { HasLimits result }
{
    Task::Gdb(GdbTask {
        image: file_given(given, "image"),
        source: source_given(given, settings),
        size: named_size_given(given, 1_048_576, settings.link),
    })
}

// The arguments of `dis`.
fn listing_task_of<'a>(given: &ArgMatches<'a>) -> ListingTask<'a>
    ensures { AsksListing (rows_of (found_of given.now)) result }
{
    ListingTask {
        image: file_given(given, "image"),
        registers: registers_given(given),
        symbols: is_set(given, "symbols"),
    }
}

// The arguments of `as`.
fn assembly_task_of<'a>(given: &ArgMatches<'a>) -> AssemblyTask
    ensures { AsksAssembly (rows_of (found_of given.now)) result }
{
    AssemblyTask {
        symbols: is_set(given, "symbols"),
    }
}

// The arguments of a command over an image and a text: the name of the second one, and the default
// of the log's number of entries.
fn files_task_of<'a>(
    given: &ArgMatches<'a>,
    text: &str,
    log: u32,
    link: Option<LinkUnit>,
) -> FilesTask<'a>
    requires { IsLinkIf (first_of (codes "link") (rows_of (found_of given.now))) link }
    ensures { AsksFiles text.now log (rows_of (found_of given.now)) result }
{
    FilesTask {
        image: file_given(given, "image"),
        text: file_given(given, text),
        size: named_size_given(given, log, link),
    }
}

// The task of the command of this name, with these settings.
fn task_named<'a>(name: &str, given: &ArgMatches<'a>, settings: Settings) -> Task<'a>
    requires { HasSettingsIf (order_use name.now) (rows_of (found_of given.now)) settings }
    ensures task { IsTask (Some (name.now, rows_of (found_of given.now))) result }
    ensures limits { HasLimits result }
{
    match name {
        "run" => task_of_run(given, settings),
        "console" => task_of_console(given, settings),
        "schedule" => task_of_schedule(given, settings),
        "search" => task_of_search(given, settings),
        "explore" => Task::Explore(explore_task_of(given, settings)),
        "trace" => task_of_trace(given, settings),
        "replay" => Task::Replay(replay_task_of(given)),
        "debug" => task_of_debug(given, settings),
        "gdb" => task_of_gdb(given, settings),
        "audit" => Task::Audit(files_task_of(given, "watches", 65_536, settings.link)),
        "as" => Task::Assemble(assembly_task_of(given)),
        "dis" => Task::Disassemble(listing_task_of(given)),
        _ => Task::Demo,
    }
}

// Whether a run in threads counts traps, and has a log without room for the entry of each of its Steps.
fn lacks_entries<'a>(task: Task<'a>) -> bool
    ensures kept { result ≡ false → HasEntries task.entry }
    ensures lost { result ≡ true → LosesEntries task.entry }
{
    match task {
        Task::RunInThreads(ThreadsTask { run, quota, .. }) => {
            let processors = run.size.processors.unwrap_or(1);
            run.traps && u64::from(quota) * u64::from(processors) > u64::from(run.size.log)
        }
        _ => false,
    }
}

// The task of the words of the command of this name.
fn task_of_command<'a>(name: &str, given: &ArgMatches<'a>) -> Result<Task<'a>, Clash>
    ensures task { IfOk result (IsTask (Some (name.now, rows_of (found_of given.now)))) }
    ensures limits { IfOk result HasLimits }
    ensures together { IfOk result (λ _. GoTogether (Some (name.now, rows_of (found_of given.now)))) }
    ensures entries { IfOk result HasEntries }
    ensures clash { IfErr result (ClashesIn (Some (name.now, rows_of (found_of given.now)))) }
{
    let settings = settings_given(given, order_use(name))?;
    let task = task_named(name, given, settings);
    if lacks_entries(task) {
        return Err(Clash::FewEntries);
    }
    Ok(task)
}

/// The task of the words of a command line.
pub(crate) fn task_of<'a>(matches: &ArgMatches<'a>) -> Result<Task<'a>, Clash>
    ensures task { IfOk result (IsTask (subcommand_rows_of matches.now)) }
    ensures limits { IfOk result HasLimits }
    ensures together { IfOk result (λ _. GoTogether (subcommand_rows_of matches.now)) }
    ensures entries { IfOk result HasEntries }
    ensures clash { IfErr result (ClashesIn (subcommand_rows_of matches.now)) }
{
    match matches.subcommand() {
        Some((name, given)) => task_of_command(name, given),
        None => Ok(Task::Demo),
    }
}
