//! What a session's lines ask for.

ghost use Rattle.std.specs.Prelude.{◌≡◌, decimal};
ghost use Rattle.m161_text.specs.Parts.{Reads};
ghost use Rattle.m161_debug.specs.Commands.{first_word};
ghost use Rattle.s161_debug.specs.Lines.{asked_by, is_silent, jump_text, trace_text, IsLong};

use m161_text::cut_at_space;

/// What a line of a session asks for.
#[derive(Clone, Copy, Debug, PartialEq, Eq)]
pub(crate) enum Asked {
    /// Nothing: the line is empty, or a comment.
    Nothing,
    /// The list of the commands.
    Help,
    /// The session's end.
    Quit,
    /// The state before an event.
    Jump,
    /// The last events that were made.
    Trace,
    /// A command of the session.
    Command,
}

/// What a line asks for.
pub(crate) fn asked_by(line: &str) -> Asked
    ensures { result ≡ asked_by line.now }
{
    if is_silent(line) {
        Asked::Nothing
    } else if line == "help" {
        Asked::Help
    } else if line == "quit" {
        Asked::Quit
    } else if first_word(line) == "j" {
        Asked::Jump
    } else if first_word(line) == "y" {
        Asked::Trace
    } else {
        Asked::Command
    }
}

// Whether a line is empty, or a comment.
fn is_silent(line: &str) -> bool
    ensures { result ≡ is_silent line.now }
{
    if line.is_empty() {
        return true;
    }
    line.starts_with('#')
}

/// The part of a line before its first space.
pub(crate) fn first_word(line: &str) -> &str
    ensures { result.now ≡ first_word line.now }
{
    match cut_at_space(line) {
        Some((word, _)) => word,
        None => line,
    }
}

/// The number of the event before which a line goes; `None` of a line that isn't `j K`.
pub(crate) fn event_of_jump(line: &str) -> Option<u64>
    ensures { Reads IsLong jump_text line.now result }
{
    parse_long(line.strip_prefix("j ")?)
}

/// How many of the last events a line shows; `None` of a line that isn't `y N`.
pub(crate) fn number_to_trace(line: &str) -> Option<u64>
    ensures { Reads IsLong trace_text line.now result }
{
    parse_long(line.strip_prefix("y ")?)
}

// The number of a decimal text below 2^64 without leading zeros.
fn parse_long(text: &str) -> Option<u64>
    ensures { Reads IsLong decimal text.now result }
{
    if text.starts_with('+') {
        return None;
    }
    if text.len() > 1 && text.starts_with('0') {
        return None;
    }
    text.parse::<u64>().ok()
}
