//! A text to a program.

ghost use Rattle.std.specs.Prelude.{◌≡◌, ◌<◌, ◌%◌, ◌∷◌, [], ◌++◌, ℕ, List, length, IfOk, IfErr, Ok, unwrap_or};
ghost use Rattle.m161_text.specs.Lines.{lines_of};
ghost use Rattle.m161_asm.specs.Lines as lines;
ghost use Rattle.m161_asm.specs.Text.{text, first_address, full, symbols_in, program_of};
ghost use Rattle.m161_asm.specs.Seen.{symbols_seen};
ghost use Rattle.m161_asm.specs.Answer.{program_seen, Tells, IsWithinLines};
ghost use Rattle.m161_asm.specs.helpers.SecondPass.{IsFilled};
ghost use Rattle.m161_asm.specs.Segments.{segment_seen, segments_seen, AreAligned};
ghost use Rattle.m161_asm.specs.helpers.Segments.{AreSegments};

use crate::error::AsmError;
use crate::first::{FirstPass, at_line, first_pass};
use crate::place::START;
use crate::program::{Program, Segment, SymbolTable};
use crate::second::{SecondPass, second_pass};
use crate::statement::ReadError;
use std::alloc::Global;

// The segments with words.
fn with_last(done: Vec<Segment>, current: Segment) -> Result<Vec<Segment>, ReadError>
    ensures value { IfOk result (λ segments. segments_seen segments.items ≡
        segments_seen done.items ++ full (segment_seen current ∷ [])) }
    ensures some { IfErr result (λ _. 0 < length current.words.items) }
{
    let mut segments = done;
    if current.words.len() > 0 {
        segments.push(current)?;
    }
    Ok(segments)
}

// The address of the first segment.
fn first_address(segments: &[Segment]) -> u32
    ensures { result ≡ first_address (segments_seen segments.now) }
{
    if segments.len() == 0 {
        return START;
    }
    let first = &segments[0];
    first.address
}

// The program of all lines.
fn program_with(second: SecondPass, symbols: SymbolTable) -> Result<Program, ReadError>
    requires segments { AreSegments (segments_seen second.done.items ++ full
        (segment_seen second.current ∷ [])) }
    requires symbols { AreAligned (symbols_seen symbols) }
    requires entry { unwrap_or second.entry (first_address (segments_seen second.done.items ++ full
        (segment_seen second.current ∷ []))) % 4 ≡ 0 }
    ensures value { (all : List lines.SourceLine) → symbols_seen symbols ≡ symbols_in all →
        IsFilled second (symbols_in all) all →
        IfOk result (λ p. program_of all ≡ Ok (program_seen p)) }
    ensures some { IfErr result (λ _. 0 < length second.current.words.items) }
{
    let SecondPass {
        done,
        current,
        address: _,
        entry,
    } = second;
    let segments = with_last(done, current)?;
    let first = first_address(&segments);
    let entry = entry.unwrap_or(first);
    Ok(Program {
        segments,
        symbols,
        entry,
    })
}

/// The program of a text.
///
/// # Errors
/// The first fault of the first faulty line, of the first pass or else of the second; or memory was
/// refused.
pub fn assemble(alloc: Global, source: &str) -> Result<Program, AsmError>
    ensures value { Tells program_seen result (text source.now) }
    ensures line { IfErr result (IsWithinLines (length (lines_of source.now))) }
{
    let first = match first_pass(alloc, source.as_bytes()) {
        Ok(first) => first,
        Err(error) => return Err(error),
    };
    let second = match second_pass(alloc, &first.symbols, &first.lines) {
        Ok(second) => second,
        Err(error) => return Err(error),
    };
    let reached = first.lines.len();
    let FirstPass { symbols, .. } = first;
    match program_with(second, symbols) {
        Ok(program) => Ok(program),
        Err(_) => Err(at_line(reached, ReadError::Memory)),
    }
}
