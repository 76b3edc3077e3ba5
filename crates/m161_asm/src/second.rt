//! The second pass: lines to the words of segments.

ghost use Rattle.std.specs.Prelude.{◌≡◌, ◌≤◌, ◌<◌, ◌+◌, ◌*◌, ◌^◌, ◌++◌, ◌∷◌, [], ℕ, List, OnOk, IfErr, map, unwrap_or, Ok, if◌then◌else◌, nat_lt, length, Option, replicate};
ghost use Rattle.m161_asm.specs.Lines.{size_of};
ghost use Rattle.m161_asm.specs.Lines as lines;
ghost use Rattle.m161_asm.specs.Text.{words_of_statement, word_of_value, each, origin_of, address_from, segments_of, entry_by, full};
ghost use Rattle.m161_isa.specs.Table.{table};
ghost use Rattle.m161_asm.specs.helpers.Lawful.{AreParts, IsStatement, Lawful};
ghost use Rattle.m161_asm.specs.Seen.{symbols_seen};
ghost use Rattle.m161_asm.specs.helpers.Seen.{AddsNumbers, part_seen, value_seen, statement_seen, line_seen, above_of};
ghost use Rattle.m161_asm.specs.Answer.{IsWithinLines};
ghost use Rattle.m161_asm.specs.Segments.{segment_seen, segments_seen};
ghost use Rattle.m161_asm.specs.helpers.SecondPass.{IsFilled, FillsLine, AdvancesPass, Passes};

use crate::error::AsmError;
use crate::first::at_line;
use crate::place::{START, origin_of, size_of};
use crate::program::{Segment, SymbolTable};
use crate::statement::{Line, Part, ReadError, Statement, Value};
use crate::values::{entry_by, fields_of, word_address, word_of_value};
use m161_isa::Row;
use std::alloc::Global;

/// The finished segments, the segment of the next line, the address of that line, and that of the
/// last `.entry`.
#[derive(Drop)]
pub struct SecondPass {
    pub done: Vec<Segment>,
    pub current: Segment,
    pub address: u64,
    pub entry: Option<u32>,
}

// Adds words of zeros.
#[tactic(auto, using(crate::proofs::Filled::padded))]
fn push_zeros(words: &mut Vec<u32>, count: u32) -> Result<(), ReadError>
    ensures { AddsNumbers result words.old.items words.new.items (Ok (replicate count 0)) }
{
    let len = words.len();
    words.resize(len + count as usize, 0)?;
    Ok(())
}

// Adds the words of values.
fn push_values(
    words: &mut Vec<u32>,
    symbols: &SymbolTable,
    values: &[Value<'_>],
) -> Result<(), ReadError>
    ensures { AddsNumbers result words.old.items words.new.items (each (word_of_value
        (symbols_seen symbols.now)) (map value_seen values.now)) }
{
    for v in values {
        match word_of_value(symbols, *v) {
            Ok(word) => words.push(word)?,
            Err(fault) => return Err(ReadError::Fault(fault)),
        }
    }
    Ok(())
}

// Adds the word of an instruction at an address.
#[tactic(auto, unfolding(crate::specs::Text::words_of_statement), using(crate::proofs::Lawfuls::fields_are))]
fn push_code(
    alloc: Global,
    words: &mut Vec<u32>,
    symbols: &SymbolTable,
    at: u64,
    row: Row,
    parts: &[Part<'_>],
) -> Result<(), ReadError>
    requires at { at ≤ 2 ^ 32 }
    requires fit { AreParts (table row).operands (map part_seen parts.now) }
    ensures { AddsNumbers result words.old.items words.new.items (words_of_statement
        (symbols_seen symbols.now) at (lines.Code row (map part_seen parts.now))) }
{
    let numbers = fields_of(alloc, symbols, at, parts)?;
    words.push(row.word(&numbers))?;
    Ok(())
}

// Tests the target of an `.entry`.
#[tactic(auto, unfolding(crate::specs::Text::words_of_statement))]
fn push_entry(words: &mut Vec<u32>, symbols: &SymbolTable, v: Value<'_>) -> Result<(), ReadError>
    ensures { (at : ℕ) → AddsNumbers result words.old.items words.new.items (words_of_statement
        (symbols_seen symbols.now) at (lines.Entry (value_seen v.entry))) }
{
    word_address(symbols, v)?;
    Ok(())
}

// Adds the words of a statement at an address.
#[tactic(auto, unfolding(crate::specs::Text::words_of_statement))]
fn push_words(
    alloc: Global,
    words: &mut Vec<u32>,
    symbols: &SymbolTable,
    at: u64,
    statement: &Statement<'_>,
) -> Result<(), ReadError>
    requires at { at ≤ 2 ^ 32 }
    requires lawful { IsStatement (statement_seen statement.now) }
    ensures { AddsNumbers result words.old.items words.new.items (words_of_statement
        (symbols_seen symbols.now) at (statement_seen statement.now)) }
{
    match statement {
        Statement::Space(count) => push_zeros(words, *count),
        Statement::Words(values) => push_values(words, symbols, values),
        Statement::Code(row, parts) => push_code(alloc, words, symbols, at, **row, parts),
        Statement::Entry(v) => push_entry(words, symbols, *v),
        Statement::Nothing => Ok(()),
        Statement::Origin(_) => Ok(()),
    }
}

impl SecondPass {
    fn new(alloc: Global) -> SecondPass
        ensures { (symbols : List (List ℕ × ℕ)) → IsFilled result symbols [] }
    {
        SecondPass {
            done: Vec::new(alloc),
            current: Segment {
                address: START,
                words: Vec::new(alloc),
            },
            address: u64::from(START),
            entry: None,
        }
    }

    // Closes the last segment, and opens one.
    fn open(&mut self, alloc: Global, address: u32) -> Result<(), ReadError>
        ensures done { OnOk result (segments_seen self.new.done.items
            ≡ segments_seen self.old.done.items ++ full (segment_seen self.old.current ∷ [])) }
        ensures current { OnOk result (segment_seen self.new.current ≡ (address, [])) }
        ensures address { OnOk result (self.new.address ≡ address) }
        ensures entry { OnOk result (self.new.entry ≡ self.old.entry) }
    {
        let opened = Segment {
            address,
            words: Vec::new(alloc),
        };
        let closed = std::mem::replace(&mut self.current, opened);
        if closed.words.len() > 0 {
            self.done.push(closed)?;
        }
        self.address = u64::from(address);
        Ok(())
    }

    // Goes past a line's words, or to the address that the line sets.
    fn advance(&mut self, alloc: Global, origin: Option<u32>, size: u64) -> Result<(), ReadError>
        requires { self.old.address + 4 * size ≤ 2 ^ 32 }
        ensures { OnOk result (AdvancesPass self.old self.new origin size) }
    {
        match origin {
            None => {
                self.address += 4 * size;
                Ok(())
            }
            Some(address) => {
                self.open(alloc, address)?;
                Ok(())
            }
        }
    }

    // Adds the words of the next line.
    fn fill(
        &mut self,
        alloc: Global,
        symbols: &SymbolTable,
        statement: &Statement<'_>,
    ) -> Result<(), ReadError>
        requires room { self.old.address + 4 * size_of (statement_seen statement.now) ≤ 2 ^ 32 }
        requires lawful { IsStatement (statement_seen statement.now) }
        ensures { (above : List lines.SourceLine) (l : lines.SourceLine) →
            l.statement ≡ statement_seen statement.now →
            IsFilled self.old (symbols_seen symbols.now) above →
            FillsLine result self.new (symbols_seen symbols.now) (l ∷ above) }
    {
        let words = &mut self.current.words;
        if let Err(error) = push_words(alloc, words, symbols, self.address, statement) {
            return Err(error);
        }
        self.entry = entry_by(symbols, self.entry, statement);
        match self.advance(alloc, origin_of(statement), size_of(statement)) {
            Ok(()) => Ok(()),
            Err(_) => Err(ReadError::Memory),
        }
    }
}

/// The words of lines, with the symbols of them all.
pub(crate) fn second_pass(
    alloc: Global,
    symbols: &SymbolTable,
    lines: &[Line<'_>],
) -> Result<SecondPass, AsmError>
    requires { Lawful (above_of lines.now) }
    ensures value { Passes result (symbols_seen symbols.now) (above_of lines.now) }
    ensures line { IfErr result (IsWithinLines (length lines.now)) }
{
    let mut pass = SecondPass::new(alloc);
    for i in 0..lines.len() {
        let line = &lines[i];
        if let Err(error) = pass.fill(alloc, symbols, &line.statement) {
            return Err(at_line(i + 1, error));
        }
    }
    Ok(pass)
}
