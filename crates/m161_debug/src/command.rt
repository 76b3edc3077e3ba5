//! The commands of a debugger.

ghost use Rattle.std.specs.Prelude.{◌≡◌, ℕ, List, Some, None, codes};
ghost use Rattle.m161_debug.specs.Commands.{change_word, name_of_error, IsAsked, IsAskedOf, IsCondition, IsConditionOf};
ghost use Rattle.m161_debug.specs.helpers.Reading.{Finds};

use crate::breakpoints::BreakError;
use crate::condition::Condition;
use crate::reading::{
    address_and_count, address_count_and_processor, byte, count, number, numbers, place,
    processor_and_address,
};
use m161_machine::Event;
use m161_symbols::Symbols;
use m161_text::cut_at_space;
use std::alloc::AllocError;
use thiserror::Error;

/// A change of a breakpoint.
#[derive(Clone, Copy)]
pub(crate) enum Change {
    Set,
    Delete,
}

/// A display of a processor.
#[derive(Clone, Copy)]
pub(crate) enum Display {
    Regs,
    Cop0,
    Tlb,
}

/// How words of RAM are shown.
#[derive(Clone, Copy)]
pub(crate) enum Area {
    Memory,
    Code,
}

/// A command.
#[derive(Clone, Copy)]
pub(crate) enum Command {
    /// Sets or deletes a breakpoint of a processor at an address.
    Breakpoint(Change, u32, u32),
    /// Makes an event.
    Make(Event),
    /// Makes Steps of a processor, at most this number, up to a stop.
    Steps(u32, u32),
    /// Makes the remaining events, up to a stop.
    Go,
    /// Makes at most this number of the remaining events, up to a stop.
    GoFirst(u64),
    /// Makes the remaining events, up to a stop, or until this holds.
    Until(Condition),
    /// Shows a processor.
    Show(Display, u32),
    /// Shows a general register of a processor.
    Register(u32, u32),
    /// Shows where each started processor is.
    Where,
    /// Shows this number of words from an address on.
    Words(Area, u32, u32),
    /// Shows instructions from an address on, this number of them, as a processor would fetch them.
    Fetched(u32, u32, u32),
    /// Shows this number of the log's last entries.
    Log(u32),
    /// Shows how many events were made, and how many there are with the remaining ones.
    At,
}

/// Why a command isn't executed. Each is returned only if none above it holds.
#[derive(Clone, Copy, Debug, PartialEq, Eq, Error)]
pub enum CommandError {
    /// No command has this word.
    #[error("there is no such command")]
    Unknown,
    /// The arguments aren't the command's, or are outside its limits.
    #[error("the arguments aren't the command's")]
    BadArgument,
    /// There is no such processor.
    #[error("there is no such processor")]
    BadProcessor,
    /// There are 64 other breakpoints.
    #[error("there are 64 other breakpoints")]
    TooMany,
    /// Memory was refused.
    #[error("out of memory")]
    NoMemory,
}

impl CommandError {
    /// Its name.
    pub fn name(self) -> &'static str
        ensures { result.now ≡ name_of_error self }
    {
        match self {
            CommandError::Unknown => "Unknown",
            CommandError::BadArgument => "BadArgument",
            CommandError::BadProcessor => "BadProcessor",
            CommandError::TooMany => "TooMany",
            CommandError::NoMemory => "NoMemory",
        }
    }
}

impl From<AllocError> for CommandError {
    ghost use Rattle.std.specs.Prelude.{◌≡◌};
    ghost use Rattle.m161_debug.specs.declared.command.CommandError.TheVariants as errors;

    ghost from_gives = { λ _ error. error ≡ errors.NoMemory };

    fn from(_error: AllocError) -> CommandError {
        CommandError::NoMemory
    }
}

impl From<BreakError> for CommandError {
    ghost use Rattle.std.specs.Prelude.{◌≡◌};
    ghost use Rattle.m161_debug.specs.declared.breakpoints.BreakError.{BreakError};
    ghost use Rattle.m161_debug.specs.Obeys.{error_of_break};

    ghost from_gives = { λ error result. result ≡ error_of_break error };

    fn from(error: BreakError) -> CommandError {
        match error {
            BreakError::BadProcessor => CommandError::BadProcessor,
            BreakError::TooMany => CommandError::TooMany,
        }
    }
}

/// The command of a line, in which addresses may have the names of these symbols. The error is that
/// its word is unknown, or that its arguments are bad.
pub(crate) fn command_of(symbols: &Symbols, line: &str) -> Result<Command, CommandError>
    ensures { IsAsked symbols.now line.now result }
{
    match cut_at_space(line) {
        Some((word, arguments)) => command_with(symbols, word, arguments),
        None => command_alone(line),
    }
}

// The command of a line without a space.
fn command_alone(line: &str) -> Result<Command, CommandError>
    ensures { (symbols : List (List ℕ × ℕ)) → IsAskedOf symbols line.now None result }
{
    match line {
        "o" => Ok(Command::Make(Event::Done)),
        "g" => Ok(Command::Go),
        "w" => Ok(Command::Where),
        "a" => Ok(Command::At),
        "b" | "d" | "s" | "k" | "r" | "c" | "t" | "m" | "x" | "l" | "u" => {
            Err(CommandError::BadArgument)
        }
        _ => Err(CommandError::Unknown),
    }
}

// The command of a word with arguments.
fn command_with(symbols: &Symbols, word: &str, arguments: &str) -> Result<Command, CommandError>
    ensures { IsAskedOf symbols.now word.now (Some arguments.now) result }
{
    match word {
        "b" => breakpoint_of(symbols, Change::Set, arguments),
        "d" => breakpoint_of(symbols, Change::Delete, arguments),
        "s" => steps_of(arguments),
        "k" => key_command(arguments),
        "o" => Err(CommandError::BadArgument),
        "g" => go_of(arguments),
        "u" => until_of(symbols, arguments),
        "r" => register_or_all(arguments),
        "c" => cop0_of(arguments),
        "t" => tlb_of(arguments),
        "w" | "a" => Err(CommandError::BadArgument),
        "m" => memory_of(symbols, arguments),
        "x" => code_of(symbols, arguments),
        "l" => log_command(arguments),
        _ => Err(CommandError::Unknown),
    }
}

fn breakpoint_of(
    symbols: &Symbols,
    change: Change,
    arguments: &str,
) -> Result<Command, CommandError>
    ensures { IsAskedOf symbols.now (change_word change) (Some arguments.now) result }
{
    match processor_and_address(symbols, arguments) {
        Some((p, at)) => Ok(Command::Breakpoint(change, p, at)),
        None => Err(CommandError::BadArgument),
    }
}

// One Step, or several.
fn steps_of(arguments: &str) -> Result<Command, CommandError>
    ensures { (symbols : List (List ℕ × ℕ)) →
        IsAskedOf symbols (codes "s") (Some arguments.now) result }
{
    if let Some(p) = number(arguments) {
        return Ok(Command::Make(Event::Step(p)));
    }
    match numbers(arguments) {
        Some((p, n)) => Ok(Command::Steps(p, n)),
        None => Err(CommandError::BadArgument),
    }
}

fn key_command(arguments: &str) -> Result<Command, CommandError>
    ensures { (symbols : List (List ℕ × ℕ)) →
        IsAskedOf symbols (codes "k") (Some arguments.now) result }
{
    match byte(arguments) {
        Some(byte) => Ok(Command::Make(Event::Key(byte))),
        None => Err(CommandError::BadArgument),
    }
}

fn go_of(arguments: &str) -> Result<Command, CommandError>
    ensures { (symbols : List (List ℕ × ℕ)) →
        IsAskedOf symbols (codes "g") (Some arguments.now) result }
{
    match count(arguments) {
        Some(n) => Ok(Command::GoFirst(n)),
        None => Err(CommandError::BadArgument),
    }
}

fn until_of(symbols: &Symbols, arguments: &str) -> Result<Command, CommandError>
    ensures { IsAskedOf symbols.now (codes "u") (Some arguments.now) result }
{
    match condition_of(symbols, arguments) {
        Some(condition) => Ok(Command::Until(condition)),
        None => Err(CommandError::BadArgument),
    }
}

// What a run waits for.
fn condition_of(symbols: &Symbols, text: &str) -> Option<Condition>
    ensures { Finds (IsCondition symbols.now) text.now result }
{
    match cut_at_space(text) {
        Some((word, arguments)) => condition_with(symbols, word, arguments),
        None => condition_alone(text),
    }
}

fn condition_alone(text: &str) -> Option<Condition>
    ensures { (symbols : List (List ℕ × ℕ)) →
        Finds (λ condition _. IsConditionOf symbols text.now None condition) text.now result }
{
    match text {
        "o" => Some(Condition::Output),
        _ => None,
    }
}

fn condition_with(symbols: &Symbols, word: &str, arguments: &str) -> Option<Condition>
    ensures { Finds (λ condition text. IsConditionOf symbols.now word.now (Some text) condition)
        arguments.now result }
{
    match word {
        "m" => Some(Condition::Memory(place(symbols, arguments)?)),
        "t" => Some(Condition::Trap(number(arguments)?)),
        "r" => {
            let (p, r) = numbers(arguments)?;
            Some(Condition::Register(p, r))
        }
        "i" => {
            let (p, i) = numbers(arguments)?;
            Some(Condition::Row(p, i))
        }
        _ => None,
    }
}

// Coprocessor 0 of a processor.
fn cop0_of(arguments: &str) -> Result<Command, CommandError>
    ensures { (symbols : List (List ℕ × ℕ)) →
        IsAskedOf symbols (codes "c") (Some arguments.now) result }
{
    match number(arguments) {
        Some(p) => Ok(Command::Show(Display::Cop0, p)),
        None => Err(CommandError::BadArgument),
    }
}

// The TLB of a processor.
fn tlb_of(arguments: &str) -> Result<Command, CommandError>
    ensures { (symbols : List (List ℕ × ℕ)) →
        IsAskedOf symbols (codes "t") (Some arguments.now) result }
{
    match number(arguments) {
        Some(p) => Ok(Command::Show(Display::Tlb, p)),
        None => Err(CommandError::BadArgument),
    }
}

// The registers of a processor, or one of them.
fn register_or_all(arguments: &str) -> Result<Command, CommandError>
    ensures { (symbols : List (List ℕ × ℕ)) →
        IsAskedOf symbols (codes "r") (Some arguments.now) result }
{
    if let Some(p) = number(arguments) {
        return Ok(Command::Show(Display::Regs, p));
    }
    match numbers(arguments) {
        Some((p, r)) => Ok(Command::Register(p, r)),
        None => Err(CommandError::BadArgument),
    }
}

fn memory_of(symbols: &Symbols, arguments: &str) -> Result<Command, CommandError>
    ensures { IsAskedOf symbols.now (codes "m") (Some arguments.now) result }
{
    match address_and_count(symbols, arguments) {
        Some((at, n)) => Ok(Command::Words(Area::Memory, at, n)),
        None => Err(CommandError::BadArgument),
    }
}

// Code by an address in kseg0 or kseg1, or as a processor would fetch it.
fn code_of(symbols: &Symbols, arguments: &str) -> Result<Command, CommandError>
    ensures { IsAskedOf symbols.now (codes "x") (Some arguments.now) result }
{
    if let Some((at, n)) = address_and_count(symbols, arguments) {
        return Ok(Command::Words(Area::Code, at, n));
    }
    match address_count_and_processor(symbols, arguments) {
        Some((at, (n, p))) => Ok(Command::Fetched(at, n, p)),
        None => Err(CommandError::BadArgument),
    }
}

fn log_command(arguments: &str) -> Result<Command, CommandError>
    ensures { (symbols : List (List ℕ × ℕ)) →
        IsAskedOf symbols (codes "l") (Some arguments.now) result }
{
    match number(arguments) {
        Some(n) => Ok(Command::Log(n)),
        None => Err(CommandError::BadArgument),
    }
}
