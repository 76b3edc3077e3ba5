//! The arguments of the commands.

use crate::argument::{Argument, Kind};
use crate::help::IMAGE_HELP;
use clap::builder::ValueParser;

// The help of `--log`.
const LOG_HELP: &str = "Entries that the log keeps, the last ones, 1 to 16777216";

// The help of `--events`.
const EVENTS_HELP: &str =
    "The most events of a driven run; 1000000 where it is left out, 100000 in search, no limit in console";

// Any number of 32 bits.
const ANY_NUMBER: Kind = Kind::Number(ValueParser::Signed(0, 4_294_967_295));

// Any number of 64 bits.
const ANY_LONG: Kind = Kind::Number(ValueParser::Unsigned(0, u64::MAX));

/// The image.
pub(crate) const IMAGE: Argument = Argument {
    name: "image",
    kind: Kind::File,
    shown: "IMAGE",
    help: IMAGE_HELP,
    default: None,
    required: true,
};

/// How much RAM the machine has.
pub(crate) const RAM: Argument = Argument {
    name: "ram",
    kind: ANY_NUMBER,
    shown: "N",
    help: "Bytes of RAM, 4096 to 16777216 in pages of 4096",
    default: Some("1048576"),
    required: false,
};

/// How many processors the machine has.
pub(crate) const CPUS: Argument = Argument {
    name: "cpus",
    kind: ANY_NUMBER,
    shown: "N",
    help: "Processors, 1 to 32",
    default: Some("1"),
    required: false,
};

/// How many entries the log keeps.
pub(crate) const LOG: Argument = Argument {
    name: "log",
    kind: ANY_NUMBER,
    shown: "N",
    help: LOG_HELP,
    default: Some("65536"),
    required: false,
};

/// What `ll` links a processor to.
pub(crate) const LINK: Argument = Argument {
    name: "link",
    kind: Kind::Text,
    shown: "UNIT",
    help: "What ll links to: word, or line, the aligned 16 bytes",
    default: Some("word"),
    required: false,
};

/// Whether the machine is strict.
pub(crate) const STRICT: Argument = Argument {
    name: "strict",
    kind: Kind::Flag,
    shown: "",
    help: "Stops the machine at a write of the TLB that makes two rows overlap",
    default: None,
    required: false,
};

/// How much RAM the machine has, where a list of events may say it.
pub(crate) const ASKED_RAM: Argument = Argument {
    name: "ram",
    kind: ANY_NUMBER,
    shown: "N",
    help: "Bytes of RAM, 4096 to 16777216 in pages of 4096; where it is left out what the events' text says, else 1048576",
    default: None,
    required: false,
};

/// How many processors the machine has, where a list of events may say it.
pub(crate) const ASKED_CPUS: Argument = Argument {
    name: "cpus",
    kind: ANY_NUMBER,
    shown: "N",
    help: "Processors, 1 to 32; where it is left out what the events' text says, else 1",
    default: None,
    required: false,
};

/// How many entries the log of `debug` and `gdb` keeps.
pub(crate) const DEBUG_LOG: Argument = Argument {
    name: "log",
    kind: ANY_NUMBER,
    shown: "N",
    help: LOG_HELP,
    default: Some("1048576"),
    required: false,
};

/// What `ll` links a processor to, where a list of events may say it.
pub(crate) const ASKED_LINK: Argument = Argument {
    name: "link",
    kind: Kind::Text,
    shown: "UNIT",
    help: "What ll links to: word, or line, the aligned 16 bytes; where it is left out what the events' text says, else word",
    default: None,
    required: false,
};

/// Whether the machine is strict, where a list of events may say it.
pub(crate) const ASKED_STRICT: Argument = Argument {
    name: "strict",
    kind: Kind::Flag,
    shown: "",
    help: "Stops the machine at a write of the TLB that makes two rows overlap; the events' text may say it, too",
    default: None,
    required: false,
};

/// Whether `run` prints the log too.
pub(crate) const SHOW_LOG: Argument = Argument {
    name: "show-log",
    kind: Kind::Flag,
    shown: "",
    help: "Prints the log too",
    default: None,
    required: false,
};

/// Whether `run` prints the log alone.
pub(crate) const ONLY_LOG: Argument = Argument {
    name: "only-log",
    kind: Kind::Flag,
    shown: "",
    help: "Prints the log alone",
    default: None,
    required: false,
};

/// Whether `run` counts the traps.
pub(crate) const TRAPS: Argument = Argument {
    name: "traps",
    kind: Kind::Flag,
    shown: "",
    help: "Prints each processor's traps by their codes: how many, and the first",
    default: None,
    required: false,
};

/// Whether `run` prints the console's bytes alone.
pub(crate) const ONLY_OUTPUT: Argument = Argument {
    name: "only-output",
    kind: Kind::Flag,
    shown: "",
    help: "Prints the console's bytes alone",
    default: None,
    required: false,
};

/// Whether a command says how far it is, where standard error is no terminal.
pub(crate) const PROGRESS: Argument = Argument {
    name: "progress",
    kind: Kind::Flag,
    shown: "",
    help: "Says on standard error how far it is, a line a second; at a terminal it always does, in one line",
    default: None,
    required: false,
};

/// How many Steps each processor makes in a thread of its own.
pub(crate) const THREADS: Argument = Argument {
    name: "threads",
    kind: Kind::Number(ValueParser::Signed(0, 1_000_000)),
    shown: "Q",
    help: "Steps that each processor makes in a thread of its own, 0 to 1000000; none where it is left out",
    default: None,
    required: false,
};

/// How many Steps a thread makes in one go.
pub(crate) const BURST: Argument = Argument {
    name: "burst",
    kind: Kind::Number(ValueParser::Signed(1, 1024)),
    shown: "K",
    help: "Steps that a thread makes at most in one go, 1 to 1024; 1 where it is left out",
    default: None,
    required: false,
};

/// An order in turns.
pub(crate) const TURNS: Argument = Argument {
    name: "turns",
    kind: Kind::Number(ValueParser::Signed(1, 1_000_000)),
    shown: "N",
    help: "Chooses the events: each ready processor makes N Steps in turn, 1 to 1000000",
    default: None,
    required: false,
};

/// At which choices of an order in turns a processor is passed over.
pub(crate) const DELAYED: Argument = Argument {
    name: "delayed",
    kind: Kind::Text,
    shown: "J,J,..",
    help: "With --turns: at the choices of these numbers, from 0, a ready processor is passed over; 1 to 64, ascending",
    default: None,
    required: false,
};

/// An order at random.
pub(crate) const RANDOM: Argument = Argument {
    name: "random",
    kind: ANY_LONG,
    shown: "SEED",
    help: "Chooses the events: the next Step is that of a ready processor at random, always the same for a SEED",
    default: None,
    required: false,
};

/// How many priorities change in a stretch.
pub(crate) const CHANGES: Argument = Argument {
    name: "changes",
    kind: Kind::Number(ValueParser::Signed(0, 64)),
    shown: "D",
    help: "Priorities in place of single choices at random; so many change in each stretch of Steps, 0 to 64",
    default: None,
    required: false,
};

/// How long a stretch is.
pub(crate) const WITHIN: Argument = Argument {
    name: "within",
    kind: Kind::Number(ValueParser::Signed(1, 16_777_216)),
    shown: "K",
    help: "With --changes: Steps of a stretch, 1 to 16777216",
    default: None,
    required: false,
};

/// The same of `search`, or the choice behind the last one of a delay.
pub(crate) const SEARCH_WITHIN: Argument = Argument {
    name: "within",
    kind: Kind::Number(ValueParser::Signed(1, 16_777_216)),
    shown: "K",
    help: "With --changes: Steps of a stretch, 1 to 16777216; with --delays: delays before choice K alone, 16777216 where it is left out",
    default: None,
    required: false,
};

/// How many events a driven run has at most: as many as any run.
pub(crate) const EVENTS: Argument = Argument {
    name: "events",
    kind: Kind::Number(ValueParser::Unsigned(1, 9_223_372_036_854_775_807)),
    shown: "N",
    help: EVENTS_HELP,
    default: None,
    required: false,
};

/// The same of a run whose events are listed.
pub(crate) const LISTED_EVENTS: Argument = Argument {
    name: "events",
    kind: Kind::Number(ValueParser::Unsigned(1, 16_777_216)),
    shown: "N",
    help: EVENTS_HELP,
    default: None,
    required: false,
};

/// When a byte is sent.
pub(crate) const TRANSFER: Argument = Argument {
    name: "transfer",
    kind: ANY_NUMBER,
    shown: "N",
    help: "Events of a driven run after which a byte is sent, 100 where it is left out",
    default: None,
    required: false,
};

/// Which keys are typed.
pub(crate) const KEYS: Argument = Argument {
    name: "keys",
    kind: Kind::Text,
    shown: "FILE",
    help: "The bytes of this file are typed in a driven run",
    default: None,
    required: false,
};

/// When keys are typed.
pub(crate) const GAP: Argument = Argument {
    name: "gap",
    kind: Kind::Text,
    shown: "N",
    help: "Events of a driven run between keys, 1000 where it is left out, or none: only where no processor is ready, as in console",
    default: None,
    required: false,
};

/// Which events come before those of an order.
pub(crate) const AFTER: Argument = Argument {
    name: "after",
    kind: Kind::Text,
    shown: "FILE",
    help: "The events of this schedule or log come first, and those of the order behind them",
    default: None,
    required: false,
};

/// How many seeds `search` tries.
pub(crate) const SEEDS: Argument = Argument {
    name: "seeds",
    kind: Kind::Number(ValueParser::Signed(1, 4_294_967_295)),
    shown: "N",
    help: "How many seeds are tried, 1 to 4294967295",
    default: None,
    required: false,
};

/// How many delays the runs of `search` have at most.
pub(crate) const DELAYS: Argument = Argument {
    name: "delays",
    kind: Kind::Number(ValueParser::Signed(0, 64)),
    shown: "D",
    help: "Makes every run by turns with at most D delays, 0 to 64, in place of runs by seeds",
    default: None,
    required: false,
};

/// How many Steps a turn of these runs has.
pub(crate) const DELAYED_TURNS: Argument = Argument {
    name: "turns",
    kind: Kind::Number(ValueParser::Signed(1, 4_294_967_295)),
    shown: "N",
    help: "With --delays: Steps of a turn, 1 to 4294967295; 50 where it is left out",
    default: None,
    required: false,
};

/// The seed that `search` tries first, or the first choice of a delay.
pub(crate) const FIRST_RUN: Argument = Argument {
    name: "from",
    kind: ANY_LONG,
    shown: "F",
    help: "The first seed, 0 where it is left out; the others follow, modulo 2^64; with --delays: no delay before choice F, 0 to 4294967295",
    default: None,
    required: false,
};

/// The watches of `search`.
pub(crate) const WATCHES: Argument = Argument {
    name: "watches",
    kind: Kind::Text,
    shown: "FILE",
    help: "Looks for a stale use of the TLB, by the watches of this file",
    default: None,
    required: false,
};

/// Among how many threads the runs of `search` are parted.
pub(crate) const JOBS: Argument = Argument {
    name: "jobs",
    kind: Kind::Number(ValueParser::Signed(1, 64)),
    shown: "N",
    help: "Threads that make the runs, 1 to 64; 1 where it is left out",
    default: None,
    required: false,
};

/// The addresses that no Step is to reach in `search`.
pub(crate) const NEVER: Argument = Argument {
    name: "never",
    kind: Kind::Texts,
    shown: "ADDRESS",
    help: "Looks for a Step that fetches a word at this address, or at that of this name; can be given 64 times",
    default: None,
    required: false,
};

/// What the console should send in `search`.
pub(crate) const OUTPUT: Argument = Argument {
    name: "output",
    kind: Kind::Text,
    shown: "FILE",
    help: "Looks for a run whose console doesn't send the bytes of this file",
    default: None,
    required: false,
};

/// How many states `search` looks at behind a run, to find that it hangs.
pub(crate) const HUNG: Argument = Argument {
    name: "hung",
    kind: Kind::Number(ValueParser::Signed(0, 4_294_967_295)),
    shown: "N",
    help: "Looks for a run from whose end no order of events leads to an end, in at most N states; 10000 where it is left out, 0 doesn't look",
    default: None,
    required: false,
};

/// How many states `explore` may find.
pub(crate) const STATES: Argument = Argument {
    name: "states",
    kind: Kind::Number(ValueParser::Signed(1, 4_294_967_295)),
    shown: "N",
    help: "How many states there may be, 1 to 4294967295; 1000000 where it is left out",
    default: None,
    required: false,
};

/// Which keys are typed while all states are looked at.
pub(crate) const EXPLORED_KEYS: Argument = Argument {
    name: "keys",
    kind: Kind::Text,
    shown: "FILE",
    help: "The bytes of this file are typed, in their order, each at any time",
    default: None,
    required: false,
};

/// Whether `search` leaves a schedule as it was found.
pub(crate) const WHOLE: Argument = Argument {
    name: "whole",
    kind: Kind::Flag,
    shown: "",
    help: "Prints the schedule as it was found",
    default: None,
    required: false,
};

/// The first event that has a line in `trace`.
pub(crate) const FIRST_EVENT: Argument = Argument {
    name: "from",
    kind: ANY_LONG,
    shown: "K",
    help: "The number of the first event that has a line, 0 where it is left out",
    default: None,
    required: false,
};

/// How many events have a line in `trace`.
pub(crate) const COUNT: Argument = Argument {
    name: "count",
    kind: ANY_LONG,
    shown: "N",
    help: "How many events have a line, all from there on where it is left out",
    default: None,
    required: false,
};

/// The processor whose Steps have lines.
pub(crate) const ONLY: Argument = Argument {
    name: "only",
    kind: ANY_NUMBER,
    shown: "P",
    help: "Only Steps of processor P have lines",
    default: None,
    required: false,
};

/// The word whose loads and stores have lines.
pub(crate) const TOUCHES: Argument = Argument {
    name: "touches",
    kind: Kind::Text,
    shown: "WORD",
    help: "Only Steps have lines that load or store the word of RAM at this address, or at that of this name",
    default: None,
    required: false,
};

/// Whether only events with an outcome have lines.
pub(crate) const OUTCOMES: Argument = Argument {
    name: "outcomes",
    kind: Kind::Flag,
    shown: "",
    help: "Only traps, idle Steps, and what stops the machine have lines",
    default: None,
    required: false,
};

/// Whether only loads and stores of shared words have lines.
pub(crate) const SHARED: Argument = Argument {
    name: "shared",
    kind: Kind::Flag,
    shown: "",
    help: "Only Steps have lines that load or store a word of RAM which two processors use, and one stores",
    default: None,
    required: false,
};

/// Whether lines tell what is loaded.
pub(crate) const LOADS: Argument = Argument {
    name: "loads",
    kind: Kind::Flag,
    shown: "",
    help: "Shows the word that a Step loads, as its first item: (ADDRESS)=",
    default: None,
    required: false,
};

/// Whether registers are shown by their names.
pub(crate) const NAMES: Argument = Argument {
    name: "names",
    kind: Kind::Flag,
    shown: "",
    help: "Shows registers by their names: $t0 for $8",
    default: None,
    required: false,
};

/// Whether addresses are shown by names.
pub(crate) const SYMBOLS: Argument = Argument {
    name: "symbols",
    kind: Kind::Flag,
    shown: "",
    help: "Shows names of addresses, from the image's symbol table",
    default: None,
    required: false,
};

/// Whether `as` writes a symbol table.
pub(crate) const LABELS: Argument = Argument {
    name: "symbols",
    kind: Kind::Flag,
    shown: "",
    help: "Writes the labels as a symbol table too",
    default: None,
    required: false,
};

/// The log of `replay`, named `entries`, since the option `--log` has the name `log`.
pub(crate) const ENTRIES: Argument = Argument {
    name: "entries",
    kind: Kind::File,
    shown: "LOG",
    help: "A log's file",
    default: None,
    required: true,
};

/// The events of `debug` and `gdb`.
pub(crate) const FILE: Argument = Argument {
    name: "file",
    kind: Kind::File,
    shown: "FILE",
    help: "A schedule's or a log's file; left out where an order is given",
    default: None,
    required: false,
};

/// The watches of `audit`.
pub(crate) const WATCHES_FILE: Argument = Argument {
    name: "watches",
    kind: Kind::File,
    shown: "WATCHES",
    help: "A file of watches",
    default: None,
    required: true,
};
