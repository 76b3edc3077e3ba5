//! The numbers of a text's values, once all labels are known.

ghost use Rattle.std.specs.Prelude.{◌≡◌, ◌≤◌, ◌<◌, ◌+◌, ◌^◌, ℕ, IfOk, map, unwrap_or, List};
ghost use Rattle.m161_asm.specs.declared.error.ErrorKind.TheVariants as faults;
ghost use Rattle.m161_asm.specs.Text.{number_of_value, word_of_value, word_address, branch_field, jump_field, field_of, each, entry_by};
ghost use Rattle.m161_asm.specs.Seen.{symbols_seen};
ghost use Rattle.m161_asm.specs.helpers.Values.{target_field};
ghost use Rattle.m161_asm.specs.helpers.Seen.{Gives, Yields, value_seen, part_seen, statement_seen};

use crate::error::ErrorKind;
use crate::program::SymbolTable;
use crate::statement::{Part, Reach, ReadError, SourceFault, Statement, Value};
use crate::symbols::label_address;
use std::alloc::Global;

// A value's whole number, as the difference of two.
#[tactic(auto, unfolding(crate::specs::Text::number_by))]
fn number_of_value(symbols: &SymbolTable, v: Value<'_>) -> Result<(u64, u64), SourceFault>
    ensures value { Gives (λ n. n) result (number_of_value (symbols_seen symbols.now)
        (value_seen v.entry)) }
    ensures small { IfOk result (λ n. (n.0 < 2 ^ 33) × (n.1 < 2 ^ 32)) }
{
    let up = u64::from(v.number.up);
    let down = u64::from(v.number.down);
    let Some(name) = v.label else {
        return Ok((up, down));
    };
    match label_address(symbols, name) {
        Some(address) => Ok((u64::from(address) + up, down)),
        None => Err(SourceFault {
            kind: ErrorKind::UnknownLabel,
            column: v.column,
        }),
    }
}

fn out_of_range(column: usize) -> SourceFault
    ensures kind { result.kind ≡ faults.OutOfRange }
    ensures column { result.column ≡ column }
{
    SourceFault {
        kind: ErrorKind::OutOfRange,
        column,
    }
}

/// The word of a value of `.word`.
#[tactic(auto, unfolding(crate::specs::Text::word_of_value))]
pub(crate) fn word_of_value(symbols: &SymbolTable, v: Value<'_>) -> Result<u32, SourceFault>
    ensures { Gives (λ n. n) result (word_of_value (symbols_seen symbols.now)
        (value_seen v.entry)) }
{
    let (up, down) = number_of_value(symbols, v)?;
    if down <= up + (1 << 31) && up <= down + 0xffff_ffff {
        Ok(((up + (1 << 32) - down) % (1 << 32)) as u32)
    } else {
        Err(out_of_range(v.column))
    }
}

/// The address of a value: a multiple of 4.
#[tactic(auto, unfolding(crate::specs::Text::word_address))]
pub(crate) fn word_address(symbols: &SymbolTable, v: Value<'_>) -> Result<u32, SourceFault>
    ensures { Gives (λ n. n) result (word_address (symbols_seen symbols.now) (value_seen v.entry)) }
{
    let (up, down) = number_of_value(symbols, v)?;
    if down <= up && up <= down + 0xffff_ffff && (up - down) % 4 == 0 {
        Ok((up - down) as u32)
    } else {
        Err(out_of_range(v.column))
    }
}

fn too_far(column: usize) -> SourceFault
    ensures kind { result.kind ≡ faults.BranchTooFar }
    ensures column { result.column ≡ column }
{
    SourceFault {
        kind: ErrorKind::BranchTooFar,
        column,
    }
}

// The field of a branch at an address.
fn branch_field(at: u64, column: usize, target: u32) -> Result<u32, SourceFault>
    requires { at ≤ 2 ^ 32 }
    ensures { Gives (λ n. n) result (branch_field at column target) }
{
    let distance = (u64::from(target) + (1 << 33) - at - 4) % (1 << 32);
    if distance < 0x2_0000 || distance >= 0xfffe_0000 {
        Ok((distance / 4 % (1 << 16)) as u32)
    } else {
        Err(too_far(column))
    }
}

// The field of a jump at an address.
fn jump_field(at: u64, column: usize, target: u32) -> Result<u32, SourceFault>
    requires { at ≤ 2 ^ 32 }
    ensures { Gives (λ n. n) result (jump_field at column target) }
{
    if u64::from(target) / (1 << 28) == (at + 4) % (1 << 32) / (1 << 28) {
        Ok(target / 4 % (1 << 26))
    } else {
        Err(too_far(column))
    }
}

// The field of a branch or a jump at an address.
fn target_field(reach: Reach, at: u64, column: usize, target: u32) -> Result<u32, SourceFault>
    requires { at ≤ 2 ^ 32 }
    ensures { Gives (λ n. n) result (target_field reach at column target) }
{
    match reach {
        Reach::Branch => branch_field(at, column, target),
        Reach::Jump => jump_field(at, column, target),
    }
}

// The number of an instruction's operand.
#[tactic(auto, unfolding(crate::specs::Text::field_of))]
fn field_of(symbols: &SymbolTable, at: u64, part: Part<'_>) -> Result<u32, SourceFault>
    requires { at ≤ 2 ^ 32 }
    ensures { Gives (λ n. n) result (field_of (symbols_seen symbols.now) at
        (part_seen part.entry)) }
{
    match part {
        Part::Field(n) => Ok(n),
        Part::Target(reach, v) => match word_address(symbols, v) {
            Ok(target) => target_field(reach, at, v.column, target),
            Err(fault) => Err(fault),
        },
    }
}

/// The numbers of an instruction's operands.
pub(crate) fn fields_of(
    alloc: Global,
    symbols: &SymbolTable,
    at: u64,
    parts: &[Part<'_>],
) -> Result<Vec<u32>, ReadError>
    requires { at ≤ 2 ^ 32 }
    ensures { Yields (λ v. v.items) result (each (field_of (symbols_seen symbols.now) at)
        (map part_seen parts.now)) }
{
    let mut fields = Vec::new(alloc);
    for part in parts {
        match field_of(symbols, at, *part) {
            Ok(field) => fields.push(field)?,
            Err(fault) => return Err(ReadError::Fault(fault)),
        }
    }
    Ok(fields)
}

/// The last `.entry`'s address.
pub(crate) fn entry_by(
    symbols: &SymbolTable,
    entry: Option<u32>,
    statement: &Statement<'_>,
) -> Option<u32>
    ensures { (first : ℕ) → unwrap_or result first ≡ entry_by (symbols_seen symbols.now)
        (unwrap_or entry first) (statement_seen statement.now) }
{
    match statement {
        Statement::Entry(v) => match word_address(symbols, *v) {
            Ok(address) => Some(address),
            Err(_) => entry,
        },
        Statement::Nothing => entry,
        Statement::Origin(_) => entry,
        Statement::Space(_) => entry,
        Statement::Words(_) => entry,
        Statement::Code(_, _) => entry,
    }
}
