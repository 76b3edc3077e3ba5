//! Why a command ends early.

ghost use Rattle.std.specs.Prelude.{◌≡◌};
ghost use Rattle.s161_base.specs.Faults.{error_of, fault_of_boot, fault_of_first, fault_of_load, fault_of_log, fault_of_schedule, fault_of_watches, unloaded_in, IsFaultOfSource};
ghost use Rattle.s161_base.specs.declared.fault.Fault.TheVariants.{Memory};

use crate::excerpt::{SourceError, excerpt_at};
use m161_asm::{AsmError, ErrorKind};
use m161_cause::Cause;
use m161_elf::{LoadError, OutsideRam, first_outside_ram};
use m161_machine::{BootError, Refusal};
use std::alloc::AllocError;
use std::error::Error;

/// Why a file or standard input isn't read.
#[derive(Clone, Copy, Debug, PartialEq, Eq)]
pub enum Unread {
    /// It can't be read.
    Failed,
    /// It has more than 402,653,184 bytes, or hasn't ended after that number of read calls.
    TooLong,
    /// It is a text, and its bytes aren't UTF-8.
    NotUtf8,
}

/// Why an image can't be loaded.
#[derive(Clone, Copy, Debug)]
pub enum Unloaded {
    /// This fault of its file.
    Load(LoadError),
    /// A segment isn't in the machine's RAM, `LoadError::SegmentOutsideRam`: this one is the first.
    Segment(OutsideRam),
}

impl Unloaded {
    /// The fault of the file.
    pub(crate) fn error(self) -> LoadError
        ensures { result ≡ error_of self }
    {
        match self {
            Unloaded::Load(error) => error,
            Unloaded::Segment(_) => LoadError::SegmentOutsideRam,
        }
    }
}

/// Why a command ends early; its text is the line on standard error.
#[derive(Clone, Copy, Debug)]
pub enum Fault<'a> {
    /// The file of this name isn't read.
    File(&'a str, Unread),
    /// This line of a schedule, from 1, is bad.
    Schedule(u64),
    /// This line of a log, from 1, is bad.
    Log(u64),
    /// What is asked for isn't the machine that a log names.
    LogMachine,
    /// The image isn't the one that a log names.
    LogImage,
    /// This line of a text of watches, from 1, is bad.
    Watches(u64),
    /// This watch, from 0, is the first that can't be watched.
    Watch(usize),
    /// This word of `--never` stands for no address.
    Never(&'a str),
    /// This word of `--touches` stands for no byte of RAM.
    Touches(&'a str),
    /// The machine refused this event of the file of `--after`, from 0.
    After(u64, Refusal),
    /// The machine's size is outside the limits.
    Conf,
    /// The image can't be loaded.
    Image(Unloaded),
    /// The text can't be assembled.
    Source(SourceError),
    /// A run in threads has no report.
    Threads(Cause),
    /// Memory was refused.
    Memory,
    /// Standard input isn't read.
    Input(Unread),
    /// A word of the command line isn't UTF-8.
    Word,
    /// Standard output failed.
    Output,
}

impl Error for Fault<'_> {}

impl<'a> From<AllocError> for Fault<'a> {
    ghost from_gives = { λ _ fault. fault ≡ Memory };

    fn from(_error: AllocError) -> Fault<'a> {
        Fault::Memory
    }
}

impl<'a> From<LoadError> for Fault<'a> {
    ghost from_gives = { λ error fault. fault ≡ fault_of_load error };

    fn from(error: LoadError) -> Fault<'a> {
        match error {
            LoadError::NoMemory => Fault::Memory,
            other => Fault::Image(Unloaded::Load(other)),
        }
    }
}

/// The fault of a boot of this file in a machine with `ram` bytes of RAM. Where a segment isn't in RAM
/// it has the first such segment; so no `From<BootError>` stands beside it, which couldn't look for one.
pub fn fault_of_boot<'a>(error: BootError, file: &[u8], ram: u32) -> Fault<'a>
    ensures { result ≡ fault_of_boot file.now ram error }
{
    match error {
        BootError::BadConf => Fault::Conf,
        BootError::Load(error) => Fault::Image(unloaded_in(file, ram, error)),
        BootError::NoMemory => Fault::Memory,
    }
}

// Why a file isn't loaded, by its fault.
fn unloaded_in(file: &[u8], ram: u32, error: LoadError) -> Unloaded
    ensures { result ≡ unloaded_in file.now ram error }
{
    match error {
        LoadError::SegmentOutsideRam => match first_outside_ram(file, ram) {
            Some(segment) => Unloaded::Segment(segment),
            None => Unloaded::Load(LoadError::SegmentOutsideRam),
        },
        other => Unloaded::Load(other),
    }
}

/// The fault of an event of the file of `--after`, from 0, that the machine refused.
pub fn fault_of_first<'a>(k: u64, refusal: Refusal) -> Fault<'a>
    ensures { result ≡ fault_of_first k refusal }
{
    match refusal {
        Refusal::NoMemory => Fault::Memory,
        other => Fault::After(k, other),
    }
}

/// The fault of a text that isn't assembled for this error.
pub fn fault_of_source<'a>(error: AsmError, source: &str) -> Fault<'a>
    ensures { IsFaultOfSource error.kind error source.now result }
{
    if error.kind == ErrorKind::NoMemory {
        return Fault::Memory;
    }
    let word = excerpt_at(source, error.line, error.column);
    Fault::Source(SourceError { error, word })
}

/// The fault of watches that can't be read.
pub fn fault_of_watches<'a>(error: m161_steplog::TextFault) -> Fault<'a>
    ensures { result ≡ fault_of_watches error }
{
    match error {
        m161_steplog::TextFault::Line(line) => Fault::Watches(line),
        m161_steplog::TextFault::NoMemory => Fault::Memory,
    }
}

/// The fault of a schedule that can't be read.
pub fn fault_of_schedule<'a>(error: m161_steplog::TextFault) -> Fault<'a>
    ensures { result ≡ fault_of_schedule error }
{
    match error {
        m161_steplog::TextFault::Line(line) => Fault::Schedule(line),
        m161_steplog::TextFault::NoMemory => Fault::Memory,
    }
}

/// The fault of a log that can't be read.
pub fn fault_of_log<'a>(error: m161_steplog::TextFault) -> Fault<'a>
    ensures { result ≡ fault_of_log error }
{
    match error {
        m161_steplog::TextFault::Line(line) => Fault::Log(line),
        m161_steplog::TextFault::NoMemory => Fault::Memory,
    }
}
