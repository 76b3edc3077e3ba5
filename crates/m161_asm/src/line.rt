//! Tokens to statements and labels.

ghost use Rattle.std.specs.Prelude.{◌≡◌, List, ℕ, length, option_map};
ghost use Rattle.std.specs.Borrow.{Bor};
ghost use Rattle.m161_isa.specs.declared.table.Row.{Row};
ghost use Rattle.m161_asm.specs.Tokens as tokens;
ghost use Rattle.m161_asm.specs.Lines.{multiple, origin_statement, space_statement, entry_statement, words_statement, value, values, end_of_line, unknown, directive_statement, instruction, name_statement, statement, label_of, sound, past_of, Space};
ghost use Rattle.m161_asm.specs.helpers.Readers.{last_multiple, last_value, by_directive, code_statement, Joins, label_name};
ghost use Rattle.m161_asm.specs.helpers.Seen.{placed_seen, all_seen, Gives, Yields, rest_seen, value_seen, statement_seen, label_read};
ghost use Rattle.std.specs.Prelude.{map, bytes_eq, codes};
ghost use Rattle.m161_asm.specs.declared.error.ErrorKind.TheVariants as faults;

use crate::error::ErrorKind;
use crate::parse::{
    after_next, directive_at, has_mark, name_at, named_row, next_column, number_at, operand_parts,
    out_of_range, value, wrong,
};
use crate::statement::{Directive, Label, ReadError, SourceFault, Statement, Value};
use crate::token::{Placed, Token};
use m161_isa::Row;
use std::alloc::Global;

// The number, if the line ends here.
fn last_number(n: u32, past: usize, ts: &[Placed<'_>]) -> Result<u32, SourceFault>
    ensures { Gives (λ n. n) result (end_of_line n past (all_seen ts.now)) }
{
    if ts.len() == 0 {
        Ok(n)
    } else {
        Err(wrong(past, ts))
    }
}

// The number of `.org` and `.space`, and the line ends behind it.
#[tactic(auto, using(crate::proofs::Readers::last_multiple_is))]
fn last_multiple(past: usize, ts: &[Placed<'_>]) -> Result<u32, SourceFault>
    ensures { Gives (λ n. n) result (last_multiple past (all_seen ts.now)) }
{
    match number_at(ts) {
        Some(n) => {
            if n % 4 == 0 {
                last_number(n, past, after_next(ts))
            } else {
                Err(out_of_range(past, ts))
            }
        }
        None => Err(wrong(past, ts)),
    }
}

#[tactic(auto, using(crate::proofs::Readers::origin_is))]
fn origin_statement<'a>(past: usize, ts: &[Placed<'a>]) -> Result<Statement<'a>, ReadError>
    ensures { Yields statement_seen result (origin_statement past (all_seen ts.now)) }
{
    match last_multiple(past, ts) {
        Ok(n) => Ok(Statement::Origin(n)),
        Err(fault) => Err(ReadError::Fault(fault)),
    }
}

#[tactic(auto, using(crate::proofs::Readers::space_is))]
fn space_statement<'a>(past: usize, ts: &[Placed<'a>]) -> Result<Statement<'a>, ReadError>
    ensures { Yields statement_seen result (space_statement past (all_seen ts.now)) }
{
    match last_multiple(past, ts) {
        Ok(n) => Ok(Statement::Space(n / 4)),
        Err(fault) => Err(ReadError::Fault(fault)),
    }
}

// The value of `.entry`, and the line ends behind it.
fn last_value<'a>(past: usize, ts: &[Placed<'a>]) -> Result<Value<'a>, SourceFault>
    ensures { Gives value_seen result (last_value past (all_seen ts.now)) }
{
    match value(past, ts) {
        Ok((v, rest)) => {
            if rest.len() == 0 {
                Ok(v)
            } else {
                Err(wrong(past, rest))
            }
        }
        Err(fault) => Err(fault),
    }
}

#[tactic(auto, using(crate::proofs::Readers::entry_is))]
fn entry_statement<'a>(past: usize, ts: &[Placed<'a>]) -> Result<Statement<'a>, ReadError>
    ensures { Yields statement_seen result (entry_statement past (all_seen ts.now)) }
{
    match last_value(past, ts) {
        Ok(v) => Ok(Statement::Entry(v)),
        Err(fault) => Err(ReadError::Fault(fault)),
    }
}

// Adds a value, and gives the tokens after it.
fn push_value<'a, 'b>(
    found: &mut Vec<Value<'a>>,
    past: usize,
    ts: &'b [Placed<'a>],
) -> Result<&'b [Placed<'a>], ReadError>
    ensures { Joins value_seen rest_seen result found.old.items found.new.items
        (value past (all_seen ts.now)) }
{
    match value(past, ts) {
        Ok((v, rest)) => match found.push(v) {
            Ok(()) => Ok(rest),
            Err(_) => Err(ReadError::Memory),
        },
        Err(fault) => Err(ReadError::Fault(fault)),
    }
}

// The values of `.word`.
fn values<'a>(alloc: Global, past: usize, ts: &[Placed<'a>]) -> Result<Vec<Value<'a>>, ReadError>
    ensures { Yields (λ vs. map value_seen vs.items) result (values (length ts.now) past
        (all_seen ts.now)) }
{
    let mut found = Vec::new(alloc);
    let mut rest = ts;
    for _i in 0..ts.len() {
        let behind = match push_value(&mut found, past, rest) {
            Ok(behind) => behind,
            Err(error) => return Err(error),
        };
        if behind.len() == 0 {
            return Ok(found);
        }
        if !has_mark(b',', behind) {
            return Err(ReadError::Fault(wrong(past, behind)));
        }
        rest = after_next(behind);
    }
    Err(ReadError::Fault(wrong(past, rest)))
}

fn words_statement<'a>(
    alloc: Global,
    past: usize,
    ts: &[Placed<'a>],
) -> Result<Statement<'a>, ReadError>
    ensures { Yields statement_seen result (words_statement past (all_seen ts.now)) }
{
    match values(alloc, past, ts) {
        Ok(found) => Ok(Statement::Words(found)),
        Err(error) => Err(error),
    }
}

// The operands of an instruction.
fn code_statement<'a>(
    alloc: Global,
    row: &'a Row,
    past: usize,
    ts: &[Placed<'a>],
) -> Result<Statement<'a>, ReadError>
    ensures { Yields statement_seen result (code_statement row.now past (all_seen ts.now)) }
{
    let mut found = Vec::new(alloc);
    match operand_parts(&mut found, true, row.operands(), past, ts) {
        Ok(()) => Ok(Statement::Code(row, found)),
        Err(error) => Err(error),
    }
}

// The row and the operands of an instruction.
fn instruction<'a>(
    alloc: Global,
    row: Option<&'a Row>,
    column: usize,
    past: usize,
    ts: &[Placed<'a>],
) -> Result<Statement<'a>, ReadError>
    ensures { Yields statement_seen result (instruction
        (option_map (λ (r : Bor Row). r.now) row.entry) column past (all_seen ts.now)) }
{
    match row {
        Some(row) => code_statement(alloc, row, past, ts),
        None => Err(ReadError::Fault(unknown(column))),
    }
}

fn unknown(column: usize) -> SourceFault
    ensures kind { result.kind ≡ faults.UnknownWord }
    ensures column { result.column ≡ column }
{
    SourceFault {
        kind: ErrorKind::UnknownWord,
        column,
    }
}

// The directive of these letters.
#[tactic(auto, unfolding(crate::specs::Lines::directive_statement))]
fn directive_of(letters: &[u8]) -> Directive
    ensures { (column past : ℕ) (ts : List tokens.Placed) → directive_statement letters.now column past ts
        ≡ by_directive result column past ts }
{
    if letters == "org".as_bytes() {
        Directive::Origin
    } else if letters == "space".as_bytes() {
        Directive::Space
    } else if letters == "entry".as_bytes() {
        Directive::Entry
    } else if letters == "word".as_bytes() {
        Directive::Words
    } else {
        Directive::Unknown
    }
}

// The statement of a directive.
fn directive_statement<'a>(
    alloc: Global,
    letters: &[u8],
    column: usize,
    past: usize,
    ts: &[Placed<'a>],
) -> Result<Statement<'a>, ReadError>
    ensures { Yields statement_seen result (directive_statement letters.now column past
        (all_seen ts.now)) }
{
    match directive_of(letters) {
        Directive::Origin => origin_statement(past, ts),
        Directive::Space => space_statement(past, ts),
        Directive::Entry => entry_statement(past, ts),
        Directive::Words => words_statement(alloc, past, ts),
        Directive::Unknown => Err(ReadError::Fault(unknown(column))),
    }
}

// The statement of `nop`.
fn no_operation<'a>(past: usize, ts: &[Placed<'a>]) -> Result<Statement<'a>, ReadError>
    ensures { Yields statement_seen result (end_of_line (Space 1) past (all_seen ts.now)) }
{
    if ts.len() == 0 {
        Ok(Statement::Space(1))
    } else {
        Err(ReadError::Fault(wrong(past, ts)))
    }
}

// The statement of a name.
fn name_statement<'a>(
    alloc: Global,
    name: &str,
    column: usize,
    past: usize,
    ts: &[Placed<'a>],
) -> Result<Statement<'a>, ReadError>
    ensures { Yields statement_seen result (name_statement (bytes_eq name.now
        (codes "nop")) name.now column past (all_seen ts.now)) }
{
    if name == "nop" {
        no_operation(past, ts)
    } else {
        instruction(alloc, named_row(name.as_bytes()), column, past, ts)
    }
}

/// The statement of a line's tokens after its label.
#[tactic(auto, using(crate::proofs::Readers::statement_is, crate::proofs::Readers::statement_none))]
pub(crate) fn statement<'a>(
    alloc: Global,
    past: usize,
    ts: &[Placed<'a>],
) -> Result<Statement<'a>, ReadError>
    ensures { Yields statement_seen result (statement past (all_seen ts.now)) }
{
    if ts.len() == 0 {
        return Ok(Statement::Nothing);
    }
    let column = next_column(past, ts);
    let rest = after_next(ts);
    match directive_at(ts) {
        Some(letters) => directive_statement(alloc, letters, column, past, rest),
        None => match name_at(ts) {
            Some(name) => name_statement(alloc, name, column, past, rest),
            None => Err(ReadError::Fault(unknown(column))),
        },
    }
}

// The name of a line's label.
fn label_name<'a>(ts: &[Placed<'a>]) -> Option<&'a str>
    ensures { option_map (λ (x : Bor (List ℕ)). x.now) result ≡ label_name (all_seen ts.now) }
{
    match name_at(ts) {
        Some(name) if has_mark(b':', after_next(ts)) => Some(name),
        _ => None,
    }
}

/// The label of a line, and the tokens after it.
#[tactic(auto, using(crate::proofs::Readers::label_is))]
pub(crate) fn label_of<'a, 'b>(ts: &'b [Placed<'a>]) -> (Option<Label<'a>>, &'b [Placed<'a>])
    ensures { label_read result ≡ label_of (all_seen ts.now) }
{
    match label_name(ts) {
        Some(name) => {
            let column = next_column(1, ts);
            (Some(Label { name, column }), after_next(after_next(ts)))
        }
        None => (None, ts),
    }
}

// The leftmost bad token is a fault.
pub(crate) fn sound(ts: &[Placed<'_>]) -> Result<(), SourceFault>
    ensures { Gives (λ _. tt) result (sound (all_seen ts.now)) }
{
    for t in ts {
        if let Token::Bad = t.token {
            return Err(SourceFault {
                kind: ErrorKind::BadToken,
                column: t.column,
            });
        }
    }
    Ok(())
}

/// The column past a line's last token.
pub(crate) fn past_of(ts: &[Placed<'_>]) -> usize
    ensures { result ≡ past_of (all_seen ts.now) }
{
    if ts.len() == 0 {
        return 1;
    }
    let last = ts[ts.len() - 1];
    last.past
}
