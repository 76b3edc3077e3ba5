//! The text of a log.

ghost use Rattle.std.specs.Prelude.{◌≡◌, ◌++◌, All, ◌+◌, ◌<◌, ◌^◌, ℕ, List, [], map, IfOk, OnOk, IsErrOf, string_bytes};
ghost use Rattle.m161_machine.specs.declared.event.Entry.{Entry};
ghost use Rattle.m161_machine.specs.History.{FitsMode};
ghost use Rattle.m161_steplog.specs.declared.fault.TextFault.TheVariants as faults;
ghost use Rattle.m161_steplog.specs.Text.{entry_text};
ghost use Rattle.m161_text.specs.Lines.{text_of, FirstBad};
ghost use Rattle.m161_steplog.specs.declared.mode.Mode.{Mode};
ghost use Rattle.m161_steplog.specs.Log.{log_text, tail_text, AreLogLines, IsReadLog};
ghost use Rattle.m161_steplog.specs.Comments.{IsLogFile, IsFirstBadOfLog};
ghost use Rattle.m161_steplog.specs.helpers.Log.{ReadsLines, fault_behind};

use crate::comments::pass_comments;
use crate::fault::TextFault;
use crate::line::parse_entry;
use crate::mode::{Mode, parse_header};
use crate::shown::{ShownEntry, ShownMode};
use m161_machine::Entry;
use m161_text::next_line;
use std::alloc::{AllocError, Global};

/// What the text of a log says.
#[derive(Drop, Debug)]
pub struct LogText {
    /// The mode of its first line.
    pub mode: Mode,
    /// The entries, in order.
    pub entries: Vec<Entry>,
}

/// An entry's line, without its end.
///
/// # Errors
/// Memory was refused.
pub fn entry_line(alloc: Global, entry: &Entry) -> Result<String, AllocError>
    ensures { IfOk result (λ line. string_bytes line ≡ entry_text entry.now) }
{
    format!(in alloc; "{}", ShownEntry(*entry))
}

/// The text of a log, in format 3 if its machine was strict, else in format 2. Every list of
/// entries has a text, also a list that no machine makes; only a strict machine's has conflicts.
///
/// # Errors
/// Memory was refused.
pub fn write_log(alloc: Global, mode: Mode, entries: &[Entry]) -> Result<String, AllocError>
    requires { All (λ (e : Entry). FitsMode mode.strict e.outcome) entries.now }
    ensures { IfOk result (λ text. string_bytes text ≡ log_text mode entries.now) }
{
    let mut text = format!(in alloc; "m161 log {}\n", ShownMode(mode))?;
    push_entries(alloc, &mut text, entries)?;
    Ok(text)
}

/// The text of the end of a log, of which so many entries before these were dropped; only a strict
/// machine's has conflicts. It isn't the text of a log: `read_log` refuses it.
///
/// # Errors
/// Memory was refused.
pub fn write_tail(
    alloc: Global,
    mode: Mode,
    dropped: u64,
    entries: &[Entry],
) -> Result<String, AllocError>
    requires { All (λ (e : Entry). FitsMode mode.strict e.outcome) entries.now }
    ensures { IfOk result (λ text. string_bytes text ≡ tail_text mode dropped entries.now) }
{
    let mut text = format!(in alloc; "m161 tail {} {dropped}\n", ShownMode(mode))?;
    push_entries(alloc, &mut text, entries)?;
    Ok(text)
}

// Appends a line for each entry.
fn push_entries(alloc: Global, text: &mut String, entries: &[Entry]) -> Result<(), AllocError>
    ensures { OnOk result
        (string_bytes text.new ≡ string_bytes text.old ++ text_of (map entry_text entries.now)) }
{
    for entry in entries {
        let line = entry_line(alloc, entry)?;
        text.push_str(line.as_str())?;
        text.push_str("\n")?;
    }
    Ok(())
}

// The mode and the entries of a log's text, line by line.
fn parse_log(alloc: Global, text: &str) -> Result<LogText, TextFault>
    ensures found { IfOk result (λ log. ReadsLines text.now log.mode log.entries.items []) }
    ensures line { (n : ℕ) → IsErrOf result (faults.Line n) → FirstBad AreLogLines text.now n }
{
    let Some((header, after)) = next_line(text) else {
        return Err(TextFault::Line(1));
    };
    let Some(mode) = parse_header(header) else {
        return Err(TextFault::Line(1));
    };
    let mut entries = Vec::new(alloc);
    let mut number = 1u64;
    let mut rest = after;
    while let Some((line, more)) = next_line(rest) {
        number += 1;
        let Some(entry) = parse_entry(line, mode) else {
            return Err(TextFault::Line(number));
        };
        entries.push(entry)?;
        rest = more;
    }
    Ok(LogText { mode, entries })
}

// A fault of a text behind so many lines, as one of the whole text.
fn fault_behind(fault: TextFault, lines: u64) -> TextFault
    requires { (n : ℕ) → fault ≡ faults.Line n → lines + n < 2 ^ 64 }
    ensures { result ≡ fault_behind lines fault }
{
    match fault {
        TextFault::Line(n) => TextFault::Line(lines + n),
        TextFault::NoMemory => TextFault::NoMemory,
    }
}

/// The mode and the entries of a log's text, of format 1, 2 or 3, which may begin with comments:
/// lines that begin with `#`.
///
/// # Errors
/// The first bad line, counted from the beginning of the whole text; or memory was refused.
pub fn read_log(alloc: Global, text: &str) -> Result<LogText, TextFault>
    // Behind its comments the text is the log of the result.
    ensures found { IfOk result (λ log. IsLogFile text.now log.mode log.entries.items) }
    // If the text is a log behind comments, it is read, unless memory is refused.
    ensures only { (mode : Mode) (es : List Entry) → IsLogFile text.now mode es
        → IsReadLog mode es result }
    ensures line { (n : ℕ) → IsErrOf result (faults.Line n) → IsFirstBadOfLog text.now n }
{
    let (log, comments) = pass_comments(text);
    match parse_log(alloc, log) {
        Ok(read) => Ok(read),
        Err(fault) => Err(fault_behind(fault, comments)),
    }
}
