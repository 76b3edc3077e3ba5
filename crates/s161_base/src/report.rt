//! The line of a fault: `s161: ` and what it is, and mostly an explanation in brackets. Written piece by
//! piece, so that telling that memory was refused takes none; and what an output that fails has got is a
//! beginning of the line, which no clause says of `write!`.

ghost use Rattle.std.specs.Prelude.{◌≡◌, ◌++◌, IfErr, OnOk, codes, decimal, option_map};
ghost use Rattle.std.specs.Io.KnownBytes.{Appends};
ghost use Rattle.m161_machine.specs.Refusal.{name_of_refusal, number_of_refusal};
ghost use Rattle.m161_text.specs.Lines.{with_line_end};
ghost use Rattle.m161_text.specs.Parts.{◌␣◌};
ghost use Rattle.s161_base.specs.Explained.{explanation_of};
ghost use Rattle.s161_base.specs.FaultLines.{detail_of, fault_head, fault_line, in_brackets, quoted, segment_text, source_text};
ghost use Rattle.s161_base.specs.Streams.{AppendsSome};
ghost use Rattle.s161_base.specs.helpers.FaultLines.{outside_text};
ghost use Rattle.s161_base.specs.helpers.Pieces.{Puts};

use crate::explained::explanation;
use crate::fault::{Fault, Unloaded};
use crate::pieces::{put, put_characters, put_hex, put_name, put_number};
use m161_asm::AsmError;
use m161_elf::OutsideRam;
use m161_machine::Refusal;
use std::io::Write;

// Writes two texts.
fn put_both<'a, E: Write>(text: &str, more: &str, errors: &mut E) -> Result<(), Fault<'a>>
    ensures { Puts (E.contents errors.old) (text.now ++ more.now) result (E.contents errors.new) }
{
    put(text, errors)?;
    put(more, errors)
}

// Writes a text, and a number behind it.
fn put_numbered<'a, E: Write>(text: &str, n: u64, errors: &mut E) -> Result<(), Fault<'a>>
    ensures { Puts (E.contents errors.old) (text.now ++ decimal n) result (E.contents errors.new) }
{
    put(text, errors)?;
    put_number(n, errors)
}

// Writes the number and the name of an error.
fn put_error<'a, E: Write>(number: u8, name: &str, errors: &mut E) -> Result<(), Fault<'a>>
    ensures { Puts (E.contents errors.old) (decimal number ␣ name.now) result (E.contents errors.new) }
{
    put_number(u64::from(number), errors)?;
    put_both(" ", name, errors)
}

// Writes the place of a text's error.
fn put_place<'a, E: Write>(error: AsmError, errors: &mut E) -> Result<(), Fault<'a>>
    ensures { Puts (E.contents errors.old) (decimal error.line ++ codes ":" ++ decimal error.column) result
        (E.contents errors.new) }
{
    put_number(error.line as u64, errors)?;
    put_numbered(":", error.column as u64, errors)
}

// Writes the place, the number and the name of a text's error.
fn put_source<'a, E: Write>(error: AsmError, errors: &mut E) -> Result<(), Fault<'a>>
    ensures { Puts (E.contents errors.old) (source_text error) result (E.contents errors.new) }
{
    put_place(error, errors)?;
    put(" ", errors)?;
    put_error(error.kind.number(), error.kind.name(), errors)
}

// Writes the number of an event that was refused, and why.
fn put_refusal<'a, E: Write>(k: u64, refusal: Refusal, errors: &mut E) -> Result<(), Fault<'a>>
    ensures { Puts (E.contents errors.old)
        (decimal k ␣ decimal (number_of_refusal refusal) ␣ name_of_refusal refusal) result
        (E.contents errors.new) }
{
    put_number(k, errors)?;
    put(" ", errors)?;
    put_error(refusal.number(), refusal.name(), errors)
}

// Writes what a script reads of a fault.
fn put_head<'a, E: Write>(fault: Fault<'_>, errors: &mut E) -> Result<(), Fault<'a>>
    ensures { Puts (E.contents errors.old) (fault_head fault.entry) result (E.contents errors.new) }
{
    match fault {
        Fault::File(name, _) => {
            put("s161: file ", errors)?;
            put_name(name, errors)
        }
        Fault::Schedule(n) => put_numbered("s161: schedule line ", n, errors),
        Fault::Log(n) => put_numbered("s161: log line ", n, errors),
        Fault::LogMachine => put("s161: log machine", errors),
        Fault::LogImage => put("s161: log image", errors),
        Fault::Watches(n) => put_numbered("s161: watches line ", n, errors),
        Fault::Watch(k) => put_numbered("s161: watch ", k as u64, errors),
        Fault::Never(word) => {
            put("s161: never ", errors)?;
            put_name(word, errors)
        }
        Fault::Touches(word) => {
            put("s161: touches ", errors)?;
            put_name(word, errors)
        }
        Fault::After(k, refusal) => {
            put("s161: after ", errors)?;
            put_refusal(k, refusal, errors)
        }
        Fault::Conf => put("s161: conf", errors),
        Fault::Image(why) => {
            put("s161: image ", errors)?;
            let error = why.error();
            put_error(error.number(), error.name(), errors)
        }
        Fault::Source(at) => {
            put("s161: source ", errors)?;
            put_source(at.error, errors)
        }
        Fault::Threads(cause) => put_both("s161: threads ", cause.name(), errors),
        Fault::Memory => put("s161: memory", errors),
        Fault::Input(_) | Fault::Word => put("s161: input", errors),
        Fault::Output => put("s161: output", errors),
    }
}

// Writes the characters at a source's error, in quotes; or that the line ends there.
fn put_quoted<'a, E: Write>(characters: &[char], errors: &mut E) -> Result<(), Fault<'a>>
    ensures { Puts (E.contents errors.old) (quoted characters.now) result (E.contents errors.new) }
{
    if characters.is_empty() {
        return put(" at the line's end", errors);
    }
    put(": \"", errors)?;
    put_characters(characters, errors)?;
    put("\"", errors)
}

// Writes where a segment is and how large RAM is.
fn put_outside<'a, E: Write>(segment: OutsideRam, errors: &mut E) -> Result<(), Fault<'a>>
    ensures { Puts (E.contents errors.old) (outside_text segment) result (E.contents errors.new) }
{
    put(" bytes from ", errors)?;
    put_hex(8, segment.address, errors)?;
    put_numbered(" on, not all in RAM of ", u64::from(segment.ram), errors)?;
    put(" bytes in kseg0 or kseg1", errors)
}

// Writes a segment that isn't in RAM.
fn put_segment<'a, E: Write>(segment: OutsideRam, errors: &mut E) -> Result<(), Fault<'a>>
    ensures { Puts (E.contents errors.old) (segment_text segment) result (E.contents errors.new) }
{
    put_numbered(" ", u64::from(segment.header), errors)?;
    put_numbered(", ", u64::from(segment.size), errors)?;
    put_outside(segment, errors)
}

// Writes what the explanation of a fault ends with.
fn put_detail<'a, E: Write>(fault: Fault<'_>, errors: &mut E) -> Result<(), Fault<'a>>
    ensures { Puts (E.contents errors.old) (detail_of fault.entry) result (E.contents errors.new) }
{
    match fault {
        Fault::Source(at) => put_quoted(at.word.characters(), errors),
        Fault::Image(Unloaded::Segment(segment)) => put_segment(segment, errors),
        _ => Ok(()),
    }
}

// Writes an explanation with what it ends with.
fn put_reason<'a, E: Write>(why: &str, fault: Fault<'_>, errors: &mut E) -> Result<(), Fault<'a>>
    ensures { Puts (E.contents errors.old) (why.now ++ detail_of fault.entry) result
        (E.contents errors.new) }
{
    put(why, errors)?;
    put_detail(fault, errors)
}

// Writes the explanation of a fault, in brackets.
fn put_explanation<'a, E: Write>(fault: Fault<'_>, errors: &mut E) -> Result<(), Fault<'a>>
    ensures { Puts (E.contents errors.old)
        (in_brackets (option_map (λ why. why ++ detail_of fault.entry) (explanation_of fault.entry))) result
        (E.contents errors.new) }
{
    match explanation(&fault) {
        Some(why) => {
            put(" (", errors)?;
            put_reason(why, fault, errors)?;
            put(")", errors)
        }
        None => Ok(()),
    }
}

// Writes a fault's line, without its end.
fn put_line<'a, E: Write>(fault: Fault<'_>, errors: &mut E) -> Result<(), Fault<'a>>
    ensures { Puts (E.contents errors.old) (fault_line fault.entry) result (E.contents errors.new) }
{
    put_head(fault, errors)?;
    put_explanation(fault, errors)
}

/// Writes a fault's line.
///
/// # Errors
/// The output failed.
pub fn tell<'a, E: Write>(fault: Fault<'_>, errors: &mut E) -> Result<(), Fault<'a>>
    ensures ok { OnOk result (Appends (E.contents errors.old) (E.contents errors.new)
        (with_line_end (fault_line fault.entry))) }
    ensures err { IfErr result (λ failed. (failed ≡ Fault.Output)
        × AppendsSome (E.contents errors.old) (E.contents errors.new)
        (with_line_end (fault_line fault.entry))) }
{
    put_line(fault, errors)?;
    put("\n", errors)
}

/// Writes a fault's line to standard error, as far as that takes it. Returns the exit status.
pub fn report<E: Write>(fault: Fault<'_>, errors: &mut E) -> u8
    ensures status { result ≡ 1 }
    ensures line { AppendsSome (E.contents errors.old) (E.contents errors.new)
        (with_line_end (fault_line fault.entry)) }
{
    let _ = tell(fault, errors);
    1
}
