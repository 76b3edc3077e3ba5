//! A line of a log.

ghost use Rattle.std.specs.Prelude.{decimal, codes};
ghost use Rattle.std.specs.Bool.{Decides};
ghost use Rattle.m161_machine.specs.History.{FitsMode};
ghost use Rattle.m161_text.specs.Parts.{◌␣◌, hex_text, Reads, IsByte, IsWord};
ghost use Rattle.m161_text.specs.helpers.Parts.{ReadsBoth};
ghost use Rattle.m161_steplog.specs.Text.{code_text, outcome_text, entry_text, IsStepOutcome, IsProper};
ghost use Rattle.m161_steplog.specs.Log.{IsEntryOf};
ghost use Rattle.m161_steplog.specs.helpers.Text.{rows_text, AreRows, IsCode, IsRow};

use crate::mode::Mode;
use m161_machine::{Entry, Event, Exception, Outcome};
use m161_text::{cut_at_space, parse_byte, parse_decimal, parse_word};

// The exception of a code.
fn parse_code(text: &str) -> Option<Exception>
    ensures { Reads IsCode code_text text.now result }
{
    let code = u8::try_from(parse_decimal(text)?).ok()?;
    Exception::from_number(code)
}

// The code and the vector of a trap.
fn parse_trap(text: &str) -> Option<(Exception, u32)>
    ensures { ReadsBoth IsCode IsWord code_text (hex_text 8) text.now result }
{
    let (code, vector) = cut_at_space(text)?;
    let code = parse_code(code)?;
    let vector = parse_word(vector)?;
    Some((code, vector))
}

// A row of a TLB.
fn parse_row(text: &str) -> Option<u8>
    ensures { Reads IsRow decimal text.now result }
{
    let row = u8::try_from(parse_decimal(text)?).ok()?;
    if row < 64 { Some(row) } else { None }
}

// Two rows, which may be the same.
fn parse_rows(text: &str) -> Option<(u8, u8)>
    ensures { ReadsBoth IsRow IsRow decimal decimal text.now result }
{
    let (row, other) = cut_at_space(text)?;
    let row = parse_row(row)?;
    let other = parse_row(other)?;
    Some((row, other))
}

// The rows of a conflict.
fn parse_conflict(text: &str) -> Option<(u8, u8)>
    ensures { Reads AreRows rows_text text.now result }
{
    let (row, other) = parse_rows(text)?;
    if row == other {
        return None;
    }
    Some((row, other))
}

// The outcome of a Step.
fn parse_step_outcome(text: &str) -> Option<Outcome>
    ensures { Reads IsStepOutcome outcome_text text.now result }
{
    match text {
        "ran" => Some(Outcome::Ran),
        "idle" => Some(Outcome::Idle),
        "off" => Some(Outcome::PoweredOff),
        _ => {
            let (kind, rest) = cut_at_space(text)?;
            match kind {
                "trap" => {
                    let (code, vector) = parse_trap(rest)?;
                    Some(Outcome::Trapped { code, vector })
                }
                "conflict" => {
                    let (row, other) = parse_conflict(rest)?;
                    Some(Outcome::Conflict { row, other })
                }
                _ => None,
            }
        }
    }
}

// The processor of a Step, and its outcome.
fn parse_step(text: &str) -> Option<(u32, Outcome)>
    ensures { ReadsBoth IsWord IsStepOutcome decimal outcome_text text.now result }
{
    let (p, outcome) = cut_at_space(text)?;
    let p = parse_decimal(p)?;
    let outcome = parse_step_outcome(outcome)?;
    Some((p, outcome))
}

// The byte of an accepted key.
fn parse_key(text: &str) -> Option<u8>
    ensures { Reads IsByte (λ byte. hex_text 2 byte ␣ codes "taken") text.now result }
{
    let (byte, outcome) = cut_at_space(text)?;
    match outcome {
        "taken" => parse_byte(byte),
        _ => None,
    }
}

// The entry of a line, whatever the mode of its log.
fn parse_any_entry(line: &str) -> Option<Entry>
    ensures { Reads IsProper entry_text line.now result }
{
    let (kind, rest) = cut_at_space(line)?;
    match kind {
        "s" => {
            let (p, outcome) = parse_step(rest)?;
            Some(Entry {
                event: Event::Step(p),
                outcome,
            })
        }
        "k" => {
            let byte = parse_key(rest)?;
            Some(Entry {
                event: Event::Key(byte),
                outcome: Outcome::Taken,
            })
        }
        "o" => match rest {
            "taken" => Some(Entry {
                event: Event::Done,
                outcome: Outcome::Taken,
            }),
            _ => None,
        },
        _ => None,
    }
}

// Whether a log of this mode can have an outcome.
fn fits(mode: Mode, outcome: Outcome) -> bool
    ensures { Decides result (FitsMode mode.strict outcome) }
{
    match outcome {
        Outcome::Conflict { .. } => mode.strict,
        _ => true,
    }
}

/// The entry of a line of a log of this mode.
pub fn parse_entry(line: &str, mode: Mode) -> Option<Entry>
    ensures { Reads (IsEntryOf mode) entry_text line.now result }
{
    let entry = parse_any_entry(line)?;
    if fits(mode, entry.outcome) {
        Some(entry)
    } else {
        None
    }
}
