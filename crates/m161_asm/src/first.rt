//! The first pass: a text to its lines and symbols. The lines are kept, with names that point into the
//! source; the second pass doesn't read the text.

ghost use Rattle.std.specs.Prelude.{◌≡◌, ◌≤◌, ◌<◌, ◌+◌, ◌^◌, ◌++◌, ◌∷◌, [], length, drop, take, OnOk, IfOk, IfErr, is_some, true, List, ℕ};
ghost use Rattle.std.specs.List.{position_or_len};
ghost use Rattle.m161_asm.specs.Tokens.{tokens};
ghost use Rattle.m161_text.specs.Lines.{lines_of};
ghost use Rattle.m161_asm.specs.Lines as lines;
ghost use Rattle.m161_asm.specs.Lines.{size_of, line_column, label_of};
ghost use Rattle.m161_asm.specs.Text.{line_of, origin_of, read_lines, symbol, symbols_in};
ghost use Rattle.m161_asm.specs.Seen.{symbols_seen};
ghost use Rattle.m161_asm.specs.helpers.Seen.{Gives, Yields, TellsFault, GoesOn, statement_seen, label_seen, line_seen, above_of, all_seen};
ghost use Rattle.m161_asm.specs.Answer.{Tells, IsWithinLines};
ghost use Rattle.m161_asm.specs.helpers.Passes.{Advances, HasRoom, IsNew, IsPosition};
ghost use Rattle.m161_asm.specs.helpers.FirstPass.{IsPass, label_checked, line_with};

use crate::error::{AsmError, ErrorKind};
use crate::line::{label_of, past_of, sound, statement};
use crate::parse::next_column;
use crate::place::{Position, origin_of, size_of};
use crate::program::SymbolTable;
use crate::scan::{after, len_before, tokens};
use crate::statement::{Line, ReadError, SourceFault};
use crate::symbols::{define, new_label};
use crate::token::Placed;
use indexmap::IndexMap;
use m161_hash::TextState;
use std::alloc::Global;

/// The lines so far, their symbols, and the position of the next line.
#[derive(Drop)]
pub struct FirstPass<'a> {
    pub lines: Vec<Line<'a>>,
    pub symbols: SymbolTable,
    pub position: Position,
}

// The column of the statement's word, or of the label if there is no statement.
fn line_column(all: &[Placed<'_>], rest: &[Placed<'_>]) -> usize
    ensures { result ≡ line_column (all_seen all.now) (all_seen rest.now) }
{
    if rest.len() == 0 {
        next_column(1, all)
    } else {
        next_column(1, rest)
    }
}

/// The error of a fault on the line of this number.
pub(crate) fn at_line(line: usize, error: ReadError) -> AsmError
    ensures told { TellsFault result line error }
    ensures line { result.line ≡ line }
{
    match error {
        ReadError::Memory => AsmError {
            line,
            column: 1,
            kind: ErrorKind::NoMemory,
        },
        ReadError::Fault(fault) => AsmError {
            line,
            column: fault.column,
            kind: fault.kind,
        },
    }
}

// The faults before a line's statement: a bad token, or a label that an earlier line has.
fn check_label(symbols: &SymbolTable, ts: &[Placed<'_>]) -> Result<(), SourceFault>
    ensures value { (above : List lines.SourceLine) → symbols_seen symbols.now ≡ symbols_in above →
        Gives (λ _. tt) result (label_checked above (all_seen ts.now)) }
    ensures new { OnOk result (IsNew (symbols_seen symbols.now) (label_of (all_seen ts.now)).0) }
{
    match sound(ts) {
        Ok(()) => {
            let (label, _) = label_of(ts);
            new_label(symbols, label)
        }
        Err(fault) => Err(fault),
    }
}

// The line of tokens, wherever it is.
fn line_with<'a>(alloc: Global, ts: &[Placed<'a>]) -> Result<Line<'a>, ReadError>
    ensures value { Yields line_seen result (line_with (all_seen ts.now)) }
    ensures label { IfOk result (λ l. label_seen l.label ≡ (label_of (all_seen ts.now)).0) }
{
    let (label, rest) = label_of(ts);
    let column = line_column(ts, rest);
    match statement(alloc, past_of(ts), rest) {
        Ok(statement) => Ok(Line {
            label,
            statement,
            column,
        }),
        Err(error) => Err(error),
    }
}

impl<'a> FirstPass<'a> {
    // Nothing read of a text yet.
    fn new(alloc: Global, text: &[u8]) -> FirstPass<'a>
        ensures pass { IsPass result }
        ensures lines { result.lines.items ≡ [] }
    {
        FirstPass {
            lines: Vec::new(alloc),
            symbols: IndexMap::with_hasher(alloc, TextState::new(text)),
            position: Position::new(alloc),
        }
    }

    // The line of tokens at the position.
    #[tactic(auto, using(crate::proofs::Above::line_is))]
    fn placed(&self, alloc: Global, ts: &[Placed<'a>]) -> Result<Line<'a>, ReadError>
        requires { IsPass self.now }
        ensures value { Yields line_seen result (line_of (above_of self.now.lines.items)
            (all_seen ts.now)) }
        ensures new { IfOk result (λ l. IsNew (symbols_seen self.now.symbols)
            (label_seen l.label)) }
        ensures room { IfOk result (λ l. HasRoom self.now.position (size_of
            (statement_seen l.statement))) }
        ensures address { IfOk result (λ l. is_some l.label ≡ true →
            self.now.position.address < 2 ^ 32) }
    {
        if let Err(fault) = check_label(&self.symbols, ts) {
            return Err(ReadError::Fault(fault));
        }
        let line = match line_with(alloc, ts) {
            Ok(line) => line,
            Err(error) => return Err(error),
        };
        match self.position.place(&line) {
            Ok(()) => Ok(line),
            Err(fault) => Err(ReadError::Fault(fault)),
        }
    }

    // The next line.
    fn read(&self, alloc: Global, line: &'a [u8]) -> Result<Line<'a>, ReadError>
        requires pass { IsPass self.now }
        requires small { length line.now < 2 ^ 63 }
        ensures value { Yields line_seen result (line_of (above_of self.now.lines.items)
            (tokens line.now)) }
        ensures new { IfOk result (λ l. IsNew (symbols_seen self.now.symbols)
            (label_seen l.label)) }
        ensures room { IfOk result (λ l. HasRoom self.now.position (size_of
            (statement_seen l.statement))) }
        ensures address { IfOk result (λ l. is_some l.label ≡ true →
            self.now.position.address < 2 ^ 32) }
    {
        match tokens(alloc, line) {
            Ok(ts) => self.placed(alloc, &ts),
            Err(_) => Err(ReadError::Memory),
        }
    }

    // Adds the symbol of a line, and goes to the position after the line.
    fn settle(&mut self, alloc: Global, line: &Line<'_>) -> Result<(), ReadError>
        requires position { IsPosition self.old.position }
        requires new { IsNew (symbols_seen self.old.symbols) (label_seen line.now.label) }
        requires room { HasRoom self.old.position (size_of (statement_seen line.now.statement)) }
        requires address { is_some line.now.label ≡ true → self.old.position.address < 2 ^ 32 }
        ensures symbols { OnOk result (symbols_seen self.new.symbols ≡ symbols_seen self.old.symbols
            ++ symbol (label_seen line.now.label) self.old.position.address) }
        ensures position { OnOk result (Advances self.old.position self.new.position
            (origin_of (statement_seen line.now.statement))
            (size_of (statement_seen line.now.statement))) }
        ensures lines { OnOk result (self.new.lines.items ≡ self.old.lines.items) }
    {
        match define(alloc, &mut self.symbols, line.label, self.position.address) {
            Ok(()) => {
                let origin = origin_of(&line.statement);
                self.position.advance(origin, size_of(&line.statement))
            }
            Err(error) => Err(error),
        }
    }

    // Adds a line that was read.
    fn take(&mut self, alloc: Global, line: Line<'a>) -> Result<(), ReadError>
        requires pass { IsPass self.old }
        requires new { IsNew (symbols_seen self.old.symbols) (label_seen line.label) }
        requires room { HasRoom self.old.position (size_of (statement_seen line.statement)) }
        requires address { is_some line.label ≡ true → self.old.position.address < 2 ^ 32 }
        ensures pass { OnOk result (IsPass self.new) }
        ensures lines { OnOk result (self.new.lines.items ≡ self.old.lines.items ++
            (line.entry ∷ [])) }
    {
        if let Err(error) = self.settle(alloc, &line) {
            return Err(error);
        }
        self.lines.push(line)?;
        Ok(())
    }

    // Reads and adds the next line.
    fn next(&mut self, alloc: Global, line: &'a [u8]) -> Result<(), AsmError>
        requires pass { IsPass self.old }
        requires small { length line.now < 2 ^ 63 }
        ensures pass { OnOk result (IsPass self.new) }
        ensures value { (below : List (List ℕ)) →
            GoesOn result (read_lines (above_of self.old.lines.items) (line.now ∷ below))
            (read_lines (above_of self.new.lines.items) below) }
        ensures count { OnOk result (length self.new.lines.items ≡
            length self.old.lines.items + 1) }
        ensures line { IfErr result (λ e. e.line ≡ length self.old.lines.items + 1) }
    {
        let number = self.lines.len() + 1;
        let line = match self.read(alloc, line) {
            Ok(line) => line,
            Err(error) => return Err(at_line(number, error)),
        };
        match self.take(alloc, line) {
            Ok(()) => Ok(()),
            Err(_) => Err(at_line(number, ReadError::Memory)),
        }
    }
}

// The text after a line of this length.
fn behind_line(rest: &[u8], len: usize) -> &[u8]
    requires { len ≤ length rest.now }
    ensures { result.now ≡ drop (len + 1) rest.now }
{
    if len < rest.len() {
        after(rest, len + 1)
    } else {
        after(rest, len)
    }
}

/// The lines of a text and their symbols.
pub(crate) fn first_pass<'a>(alloc: Global, text: &'a [u8]) -> Result<FirstPass<'a>, AsmError>
    requires { length text.now < 2 ^ 63 }
    ensures value { Tells (λ p. above_of p.lines.items) result (read_lines [] (lines_of text.now)) }
    ensures pass { IfOk result IsPass }
    ensures line { IfErr result (IsWithinLines (length (lines_of text.now))) }
{
    let mut pass = FirstPass::new(alloc, text);
    let mut rest = &text[..];
    while rest.len() > 0 {
        let len = len_before(rest, b'\n');
        if let Err(error) = pass.next(alloc, &rest[..len]) {
            return Err(error);
        }
        rest = behind_line(rest, len);
    }
    Ok(pass)
}
