//! The table of commands: the arguments of each.

ghost use Rattle.std.specs.Prelude.{◌≡◌};
ghost use Rattle.s161_command.specs.Commands.{as_line, audit_line, console_line, debug_line, dis_line, explore_line, gdb_line, replay_line, run_line, schedule_line, search_line, trace_line};
ghost use Rattle.s161_command.specs.helpers.Lines.{app_named, demo_line, line_app};

use crate::argument::Argument;
use crate::help::{
    AFTER_AS_HELP, AFTER_AUDIT_HELP, AFTER_CONSOLE_HELP, AFTER_DEBUG_HELP, AFTER_DIS_HELP,
    AFTER_EXPLORE_HELP, AFTER_GDB_HELP, AFTER_REPLAY_HELP, AFTER_RUN_HELP, AFTER_SCHEDULE_HELP,
    AFTER_SEARCH_HELP, AFTER_TRACE_HELP,
};
use crate::options::{
    AFTER, ASKED_CPUS, ASKED_LINK, ASKED_RAM, ASKED_STRICT, BURST, CHANGES, COUNT, CPUS, DEBUG_LOG,
    DELAYED, DELAYED_TURNS, DELAYS, ENTRIES, EVENTS, EXPLORED_KEYS, FILE, FIRST_EVENT, FIRST_RUN,
    GAP, HUNG, IMAGE, JOBS, KEYS, LABELS, LINK, LISTED_EVENTS, LOADS, LOG, NAMES, NEVER, ONLY,
    ONLY_LOG, ONLY_OUTPUT, OUTCOMES, OUTPUT, PROGRESS, RAM, RANDOM, SEARCH_WITHIN, SEEDS, SHARED,
    SHOW_LOG, STATES, STRICT, SYMBOLS, THREADS, TOUCHES, TRANSFER, TRAPS, TURNS, WATCHES,
    WATCHES_FILE, WHOLE, WITHIN,
};

/// The name of a command of the program.
#[derive(Clone, Copy)]
pub(crate) enum CommandName {
    Demo,
    Run,
    Console,
    Schedule,
    Search,
    Explore,
    Trace,
    Replay,
    Debug,
    Gdb,
    Audit,
    Assemble,
    Disassemble,
}

/// A command of the program.
#[derive(Clone, Copy)]
pub(crate) struct Line {
    /// Its name.
    pub(crate) name: &'static str,
    /// What it does.
    pub(crate) about: &'static str,
    /// Its arguments; help shows them in this order.
    pub(crate) arguments: &'static [Argument],
}

/// The commands; help shows them in this order.
pub(crate) static COMMANDS: [CommandName; 13] = [
    CommandName::Demo,
    CommandName::Run,
    CommandName::Console,
    CommandName::Schedule,
    CommandName::Search,
    CommandName::Explore,
    CommandName::Trace,
    CommandName::Replay,
    CommandName::Debug,
    CommandName::Gdb,
    CommandName::Audit,
    CommandName::Assemble,
    CommandName::Disassemble,
];

static DEMO: Line = Line {
    name: "demo",
    about: "Makes seven Steps of the built-in image",
    arguments: &[],
};

static RUN: Line = Line {
    name: "run",
    about: "Runs an image under a schedule of events, or by an order that chooses them",
    arguments: &[
        IMAGE,
        ASKED_RAM,
        ASKED_CPUS,
        LOG,
        ASKED_LINK,
        ASKED_STRICT,
        SHOW_LOG,
        ONLY_LOG,
        ONLY_OUTPUT,
        TRAPS,
        THREADS,
        BURST,
        PROGRESS,
        TURNS,
        DELAYED,
        RANDOM,
        CHANGES,
        WITHIN,
        EVENTS,
        TRANSFER,
        KEYS,
        GAP,
        AFTER,
    ],
};

static CONSOLE: Line = Line {
    name: "console",
    about: "Runs a kernel at the terminal: its console is standard input and output",
    arguments: &[
        IMAGE, RAM, CPUS, LOG, LINK, STRICT, TURNS, DELAYED, RANDOM, CHANGES, WITHIN, EVENTS,
        TRANSFER, GAP,
    ],
};

static SCHEDULE: Line = Line {
    name: "schedule",
    about: "Prints the events that an order chooses, as a schedule",
    arguments: &[
        IMAGE,
        ASKED_RAM,
        ASKED_CPUS,
        LOG,
        ASKED_LINK,
        ASKED_STRICT,
        TURNS,
        DELAYED,
        RANDOM,
        CHANGES,
        WITHIN,
        LISTED_EVENTS,
        TRANSFER,
        KEYS,
        GAP,
        AFTER,
    ],
};

static SEARCH: Line = Line {
    name: "search",
    about: "Looks for a seed whose run goes wrong, and prints a short schedule of it",
    arguments: &[
        IMAGE,
        ASKED_RAM,
        ASKED_CPUS,
        LOG,
        ASKED_LINK,
        ASKED_STRICT,
        SEEDS,
        DELAYS,
        DELAYED_TURNS,
        FIRST_RUN,
        JOBS,
        WATCHES,
        NEVER,
        OUTPUT,
        HUNG,
        WHOLE,
        PROGRESS,
        CHANGES,
        SEARCH_WITHIN,
        LISTED_EVENTS,
        TRANSFER,
        KEYS,
        GAP,
        AFTER,
    ],
};

static EXPLORE: Line = Line {
    name: "explore",
    about: "Looks at every state that any order of events can reach, for a kernel that is right in each",
    arguments: &[
        IMAGE,
        RAM,
        CPUS,
        LINK,
        STRICT,
        WATCHES,
        NEVER,
        OUTPUT,
        EXPLORED_KEYS,
        STATES,
        PROGRESS,
    ],
};

static TRACE: Line = Line {
    name: "trace",
    about: "Prints a line for each event of a run: the instruction, and what it changed",
    arguments: &[
        IMAGE,
        ASKED_RAM,
        ASKED_CPUS,
        LOG,
        ASKED_LINK,
        ASKED_STRICT,
        FIRST_EVENT,
        COUNT,
        NAMES,
        SYMBOLS,
        ONLY,
        TOUCHES,
        OUTCOMES,
        SHARED,
        LOADS,
        TURNS,
        DELAYED,
        RANDOM,
        CHANGES,
        WITHIN,
        EVENTS,
        TRANSFER,
        KEYS,
        GAP,
        AFTER,
    ],
};

static REPLAY: Line = Line {
    name: "replay",
    about: "Makes a log's events once more, and compares their outcomes",
    arguments: &[IMAGE, ENTRIES, ASKED_RAM, ASKED_CPUS, LOG, PROGRESS],
};

static DEBUG: Line = Line {
    name: "debug",
    about: "Does a debugger's commands on an image under a list of events",
    arguments: &[
        IMAGE,
        FILE,
        ASKED_RAM,
        ASKED_CPUS,
        DEBUG_LOG,
        ASKED_LINK,
        ASKED_STRICT,
        NAMES,
        SYMBOLS,
        TURNS,
        DELAYED,
        RANDOM,
        CHANGES,
        WITHIN,
        LISTED_EVENTS,
        TRANSFER,
        KEYS,
        GAP,
        AFTER,
    ],
};

static GDB: Line = Line {
    name: "gdb",
    about: "Serves GDB's remote protocol on an image under a list of events",
    arguments: &[
        IMAGE,
        FILE,
        ASKED_RAM,
        ASKED_CPUS,
        DEBUG_LOG,
        ASKED_LINK,
        ASKED_STRICT,
        TURNS,
        DELAYED,
        RANDOM,
        CHANGES,
        WITHIN,
        LISTED_EVENTS,
        TRANSFER,
        KEYS,
        GAP,
        AFTER,
    ],
};

static AUDIT: Line = Line {
    name: "audit",
    about: "Looks for a Step that uses a stale row of the TLB, after its shootdown",
    arguments: &[
        IMAGE,
        WATCHES_FILE,
        ASKED_RAM,
        ASKED_CPUS,
        LOG,
        ASKED_LINK,
        ASKED_STRICT,
        PROGRESS,
    ],
};

static AS: Line = Line {
    name: "as",
    about: "Assembles a text to an ELF file",
    arguments: &[LABELS],
};

static DIS: Line = Line {
    name: "dis",
    about: "Prints the instructions of an image",
    arguments: &[IMAGE, NAMES, SYMBOLS],
};

// The line of `demo`. Each line has a function of its own: one static with all of them reaches the
// prover's limit of steps.
fn demo_command() -> &'static Line
    ensures { line_app result.now ≡ demo_line }
{
    &DEMO
}

// The line of `run`.
fn run_command() -> &'static Line
    ensures { line_app result.now ≡ run_line }
{
    &RUN
}

// The line of `console`.
fn console_command() -> &'static Line
    ensures { line_app result.now ≡ console_line }
{
    &CONSOLE
}

// The line of `schedule`.
fn schedule_command() -> &'static Line
    ensures { line_app result.now ≡ schedule_line }
{
    &SCHEDULE
}

// The line of `search`.
fn search_command() -> &'static Line
    ensures { line_app result.now ≡ search_line }
{
    &SEARCH
}

// The line of `explore`.
fn explore_command() -> &'static Line
    ensures { line_app result.now ≡ explore_line }
{
    &EXPLORE
}

// The line of `trace`.
fn trace_command() -> &'static Line
    ensures { line_app result.now ≡ trace_line }
{
    &TRACE
}

// The line of `replay`.
fn replay_command() -> &'static Line
    ensures { line_app result.now ≡ replay_line }
{
    &REPLAY
}

// The line of `debug`.
fn debug_command() -> &'static Line
    ensures { line_app result.now ≡ debug_line }
{
    &DEBUG
}

// The line of `gdb`.
fn gdb_command() -> &'static Line
    ensures { line_app result.now ≡ gdb_line }
{
    &GDB
}

// The line of `audit`.
fn audit_command() -> &'static Line
    ensures { line_app result.now ≡ audit_line }
{
    &AUDIT
}

// The line of `as`.
fn as_command() -> &'static Line
    ensures { line_app result.now ≡ as_line }
{
    &AS
}

// The line of `dis`.
fn dis_command() -> &'static Line
    ensures { line_app result.now ≡ dis_line }
{
    &DIS
}

/// The line of a command.
pub(crate) fn line_of(name: CommandName) -> &'static Line
    ensures { line_app result.now ≡ app_named name }
{
    match name {
        CommandName::Demo => demo_command(),
        CommandName::Run => run_command(),
        CommandName::Console => console_command(),
        CommandName::Schedule => schedule_command(),
        CommandName::Search => search_command(),
        CommandName::Explore => explore_command(),
        CommandName::Trace => trace_command(),
        CommandName::Replay => replay_command(),
        CommandName::Debug => debug_command(),
        CommandName::Gdb => gdb_command(),
        CommandName::Audit => audit_command(),
        CommandName::Assemble => as_command(),
        CommandName::Disassemble => dis_command(),
    }
}

/// The end of the help of a command, if there is one. In a function, since a static with these texts
/// costs the prover seconds.
pub(crate) fn after_help_of(name: CommandName) -> Option<&'static str> {
    match name {
        CommandName::Demo => None,
        CommandName::Run => Some(AFTER_RUN_HELP),
        CommandName::Console => Some(AFTER_CONSOLE_HELP),
        CommandName::Schedule => Some(AFTER_SCHEDULE_HELP),
        CommandName::Search => Some(AFTER_SEARCH_HELP),
        CommandName::Explore => Some(AFTER_EXPLORE_HELP),
        CommandName::Trace => Some(AFTER_TRACE_HELP),
        CommandName::Replay => Some(AFTER_REPLAY_HELP),
        CommandName::Debug => Some(AFTER_DEBUG_HELP),
        CommandName::Gdb => Some(AFTER_GDB_HELP),
        CommandName::Audit => Some(AFTER_AUDIT_HELP),
        CommandName::Assemble => Some(AFTER_AS_HELP),
        CommandName::Disassemble => Some(AFTER_DIS_HELP),
    }
}
