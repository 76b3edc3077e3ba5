//! Tokens to statements.

ghost use Rattle.std.specs.Prelude.{◌≡◌, ◌≤◌, ◌<◌, ◌+◌, ◌^◌, ℕ, List, [], ◌∷◌, length, Result, IfSome, MatchOption, find, bytes_eq, drop, option_map};
ghost use Rattle.std.specs.Borrow.{Bor};
ghost use Rattle.m161_asm.specs.declared.error.ErrorKind.TheVariants as faults;
ghost use Rattle.m161_asm.specs.Lines.{next_column, mark, register, whole, addend, value, part, is_within, bits_of_whole, comma, operand_parts, comma_and_part};
ghost use Rattle.m161_isa.specs.Table.{table};
ghost use Rattle.m161_asm.specs.Lines.{row_named};
ghost use Rattle.m161_asm.specs.helpers.Readers.{has_mark, number_at, register_at, name_at, directive_at, number_with, signed, value_number, closed, field_of_whole, immediate_number, base_register, field, field_part, target_of, Joins};
ghost use Rattle.m161_asm.specs.helpers.Seen.{placed_seen, all_seen, Gives, rest_seen, number_seen, whole_seen, whole_read, value_read, value_seen, part_read, part_seen, Adds};

use crate::error::ErrorKind;
use crate::statement::{Part, Reach, ReadError, SourceFault, Value, Whole};
use crate::token::{Placed, Token};
use m161_isa::{Operand, ROWS, Row, rows_in_order};

// Whether this mark is next.
pub(crate) fn has_mark(byte: u8, ts: &[Placed<'_>]) -> bool
    ensures { result ≡ has_mark byte (all_seen ts.now) }
{
    if ts.len() == 0 {
        return false;
    }
    match ts[0].token {
        Token::Mark(b) => b == byte,
        _ => false,
    }
}

// The number that is next.
pub(crate) fn number_at(ts: &[Placed<'_>]) -> Option<u32>
    ensures { result ≡ number_at (all_seen ts.now) }
{
    if ts.len() == 0 {
        return None;
    }
    match ts[0].token {
        Token::Number(n) => Some(n),
        _ => None,
    }
}

// The register that is next.
fn register_at(ts: &[Placed<'_>]) -> Option<u32>
    ensures { result ≡ register_at (all_seen ts.now) }
{
    if ts.len() == 0 {
        return None;
    }
    match ts[0].token {
        Token::Register(n) if n < 32 => Some(n),
        _ => None,
    }
}

// The name that is next.
pub(crate) fn name_at<'a>(ts: &[Placed<'a>]) -> Option<&'a str>
    ensures { option_map (λ (x : Bor (List ℕ)). x.now) result ≡ name_at (all_seen ts.now) }
{
    if ts.len() == 0 {
        return None;
    }
    match ts[0].token {
        Token::Name(text) => Some(text),
        _ => None,
    }
}

// The letters of the directive that is next.
pub(crate) fn directive_at<'a>(ts: &[Placed<'a>]) -> Option<&'a [u8]>
    ensures { option_map (λ (x : Bor (List ℕ)). x.now) result ≡ directive_at (all_seen ts.now) }
{
    if ts.len() == 0 {
        return None;
    }
    match ts[0].token {
        Token::Directive(letters) => Some(letters),
        _ => None,
    }
}

// The tokens after the next one.
pub(crate) fn after_next<'a, 'b>(ts: &'b [Placed<'a>]) -> &'b [Placed<'a>]
    ensures { all_seen result.now ≡ drop 1 (all_seen ts.now) }
{
    if ts.len() == 0 { ts } else { &ts[1..] }
}

// The column of the next token, or the one past the last.
pub(crate) fn next_column(past: usize, ts: &[Placed<'_>]) -> usize
    ensures { result ≡ next_column past (all_seen ts.now) }
{
    if ts.len() == 0 { past } else { ts[0].column }
}

// The fault that the expected token is missing.
pub(crate) fn wrong(past: usize, ts: &[Placed<'_>]) -> SourceFault
    ensures kind { result.kind ≡ faults.BadOperand }
    ensures column { result.column ≡ next_column past (all_seen ts.now) }
{
    SourceFault {
        kind: ErrorKind::BadOperand,
        column: next_column(past, ts),
    }
}

// The fault that the next number is outside its range.
pub(crate) fn out_of_range(past: usize, ts: &[Placed<'_>]) -> SourceFault
    ensures kind { result.kind ≡ faults.OutOfRange }
    ensures column { result.column ≡ next_column past (all_seen ts.now) }
{
    SourceFault {
        kind: ErrorKind::OutOfRange,
        column: next_column(past, ts),
    }
}

#[tactic(auto, using(crate::proofs::Readers::mark_is))]
pub(crate) fn mark<'a, 'b>(
    byte: u8,
    past: usize,
    ts: &'b [Placed<'a>],
) -> Result<&'b [Placed<'a>], SourceFault>
    ensures { Gives rest_seen result (mark byte past (all_seen ts.now)) }
{
    if has_mark(byte, ts) {
        Ok(after_next(ts))
    } else {
        Err(wrong(past, ts))
    }
}

#[tactic(auto, using(crate::proofs::Readers::register_is))]
fn register<'a, 'b>(
    past: usize,
    ts: &'b [Placed<'a>],
) -> Result<(u32, &'b [Placed<'a>]), SourceFault>
    ensures { Gives number_seen result (register past (all_seen ts.now)) }
{
    match register_at(ts) {
        Some(n) => Ok((n, after_next(ts))),
        None => Err(wrong(past, ts)),
    }
}

fn signed(is_negative: bool, n: u32) -> Whole
    ensures { whole_seen result ≡ signed is_negative n }
{
    if is_negative {
        Whole { up: 0, down: n }
    } else {
        Whole { up: n, down: 0 }
    }
}

// The number behind a sign.
#[tactic(auto, using(crate::proofs::Readers::number_with_is))]
fn number_with<'a, 'b>(
    is_negative: bool,
    past: usize,
    ts: &'b [Placed<'a>],
) -> Result<(Whole, &'b [Placed<'a>]), SourceFault>
    ensures { Gives whole_read result (number_with is_negative past (all_seen ts.now)) }
{
    match number_at(ts) {
        Some(n) => Ok((signed(is_negative, n), after_next(ts))),
        None => Err(wrong(past, ts)),
    }
}

// `[-] number`.
#[tactic(auto, using(crate::proofs::Readers::whole_is))]
fn whole<'a, 'b>(
    past: usize,
    ts: &'b [Placed<'a>],
) -> Result<(Whole, &'b [Placed<'a>]), SourceFault>
    ensures { Gives whole_read result (whole past (all_seen ts.now)) }
{
    if has_mark(b'-', ts) {
        number_with(true, past, after_next(ts))
    } else {
        number_with(false, past, ts)
    }
}

// `[+ number | - number]`.
#[tactic(auto, using(crate::proofs::Readers::addend_is))]
fn addend<'a, 'b>(
    past: usize,
    ts: &'b [Placed<'a>],
) -> Result<(Whole, &'b [Placed<'a>]), SourceFault>
    ensures { Gives whole_read result (addend past (all_seen ts.now)) }
{
    if has_mark(b'+', ts) {
        number_with(false, past, after_next(ts))
    } else if has_mark(b'-', ts) {
        number_with(true, past, after_next(ts))
    } else {
        Ok((Whole { up: 0, down: 0 }, ts))
    }
}

// The number of a value, behind its label or alone.
fn value_number<'a, 'b>(
    has_label: bool,
    past: usize,
    ts: &'b [Placed<'a>],
) -> Result<(Whole, &'b [Placed<'a>]), SourceFault>
    ensures { Gives whole_read result (value_number has_label past (all_seen ts.now)) }
{
    if has_label {
        addend(past, after_next(ts))
    } else {
        whole(past, ts)
    }
}

/// A V: perhaps a label, and a whole number.
#[tactic(auto, using(crate::proofs::Readers::value_is))]
pub(crate) fn value<'a, 'b>(
    past: usize,
    ts: &'b [Placed<'a>],
) -> Result<(Value<'a>, &'b [Placed<'a>]), SourceFault>
    ensures { Gives value_read result (value past (all_seen ts.now)) }
{
    let label = name_at(ts);
    match value_number(label.is_some(), past, ts) {
        Ok((number, rest)) => {
            let column = next_column(past, ts);
            Ok((
                Value {
                    label,
                    number,
                    column,
                },
                rest,
            ))
        }
        Err(fault) => Err(fault),
    }
}

fn is_within(low: u32, high: u32, n: Whole) -> bool
    ensures { result ≡ is_within low high (whole_seen n) }
{
    u64::from(n.down) <= u64::from(n.up) + u64::from(low)
        && u64::from(n.up) <= u64::from(n.down) + u64::from(high)
}

// The last `width` bits of a number.
fn bits_of_whole(width: u32, n: Whole) -> u32
    requires { width ≤ 32 }
    ensures { result ≡ bits_of_whole width (whole_seen n) }
{
    let modulus = 1u64 << width;
    ((u64::from(n.up) + modulus).saturating_sub(u64::from(n.down)) % modulus) as u32
}

// A number from -low to high, as a field of `width` bits.
fn field_of_whole(low: u32, high: u32, width: u32, n: Whole) -> Option<u32>
    requires { width ≤ 32 }
    ensures { result ≡ field_of_whole low high width (whole_seen n) }
{
    if is_within(low, high, n) {
        Some(bits_of_whole(width, n))
    } else {
        None
    }
}

// The field of a number from -low to high.
fn immediate<'a, 'b>(
    low: u32,
    high: u32,
    width: u32,
    past: usize,
    ts: &'b [Placed<'a>],
) -> Result<(u32, &'b [Placed<'a>]), SourceFault>
    requires { width ≤ 32 }
    ensures { Gives number_seen result (immediate_number low high width past (all_seen ts.now)) }
{
    match whole(past, ts) {
        Ok((n, rest)) => match field_of_whole(low, high, width, n) {
            Some(field) => Ok((field, rest)),
            None => Err(out_of_range(past, ts)),
        },
        Err(fault) => Err(fault),
    }
}

// `register)`.
#[tactic(auto, using(crate::proofs::Readers::closed_is))]
fn closed<'a, 'b>(past: usize, ts: &'b [Placed<'a>]) -> Result<(u32, &'b [Placed<'a>]), SourceFault>
    ensures { Gives number_seen result (closed past (all_seen ts.now)) }
{
    let rest = after_next(ts);
    match register_at(ts) {
        Some(n) => {
            if has_mark(b')', rest) {
                Ok((n, after_next(rest)))
            } else {
                Err(wrong(past, rest))
            }
        }
        None => Err(wrong(past, ts)),
    }
}

// `(register)`.
#[tactic(auto, using(crate::proofs::Readers::base_is))]
fn base<'a, 'b>(past: usize, ts: &'b [Placed<'a>]) -> Result<(u32, &'b [Placed<'a>]), SourceFault>
    ensures { Gives number_seen result (base_register past (all_seen ts.now)) }
{
    if has_mark(b'(', ts) {
        closed(past, after_next(ts))
    } else {
        Err(wrong(past, ts))
    }
}

// The field of an operand that is no target, by its kind in the table.
fn field<'a, 'b>(
    operand: Operand,
    past: usize,
    ts: &'b [Placed<'a>],
) -> Result<(u32, &'b [Placed<'a>]), SourceFault>
    ensures { Gives number_seen result (field operand past (all_seen ts.now)) }
{
    match operand {
        Operand::Rd | Operand::Rs | Operand::Rt | Operand::Cop0 => register(past, ts),
        Operand::Amount => immediate(0, 31, 5, past, ts),
        Operand::Signed | Operand::Offset => immediate(32768, 32767, 16, past, ts),
        Operand::Unsigned => immediate(0, 65535, 16, past, ts),
        Operand::Base => base(past, ts),
        Operand::Branch | Operand::Jump => Err(wrong(past, ts)),
    }
}

// An operand that is no target.
fn field_part<'a, 'b>(
    operand: Operand,
    past: usize,
    ts: &'b [Placed<'a>],
) -> Result<(Part<'a>, &'b [Placed<'a>]), SourceFault>
    ensures { Gives part_read result (field_part operand past (all_seen ts.now)) }
{
    match field(operand, past, ts) {
        Ok((n, rest)) => Ok((Part::Field(n), rest)),
        Err(fault) => Err(fault),
    }
}

// The target of a branch or a jump.
fn target<'a, 'b>(
    reach: Reach,
    past: usize,
    ts: &'b [Placed<'a>],
) -> Result<(Part<'a>, &'b [Placed<'a>]), SourceFault>
    ensures { Gives part_read result (target_of reach past (all_seen ts.now)) }
{
    match value(past, ts) {
        Ok((v, rest)) => Ok((Part::Target(reach, v), rest)),
        Err(fault) => Err(fault),
    }
}

// An operand, by its kind in the table.
#[tactic(auto, using(crate::proofs::Readers::part_is))]
fn part<'a, 'b>(
    operand: Operand,
    past: usize,
    ts: &'b [Placed<'a>],
) -> Result<(Part<'a>, &'b [Placed<'a>]), SourceFault>
    ensures { Gives part_read result (part operand past (all_seen ts.now)) }
{
    match operand {
        Operand::Branch => target(Reach::Branch, past, ts),
        Operand::Jump => target(Reach::Jump, past, ts),
        Operand::Rd
        | Operand::Rs
        | Operand::Rt
        | Operand::Cop0
        | Operand::Amount
        | Operand::Signed
        | Operand::Offset
        | Operand::Unsigned
        | Operand::Base => field_part(operand, past, ts),
    }
}

// A comma before each operand except the first and a base.
fn comma<'a, 'b>(
    first: bool,
    operand: Operand,
    past: usize,
    ts: &'b [Placed<'a>],
) -> Result<&'b [Placed<'a>], SourceFault>
    ensures { Gives rest_seen result (comma first operand past (all_seen ts.now)) }
{
    if first {
        return Ok(ts);
    }
    match operand {
        Operand::Base => Ok(ts),
        _ => mark(b',', past, ts),
    }
}

// An operand and the comma before it.
fn separated_part<'a, 'b>(
    first: bool,
    operand: Operand,
    past: usize,
    ts: &'b [Placed<'a>],
) -> Result<(Part<'a>, &'b [Placed<'a>]), SourceFault>
    ensures { Gives part_read result (comma_and_part first operand past (all_seen ts.now)) }
{
    match comma(first, operand, past, ts) {
        Ok(rest) => part(operand, past, rest),
        Err(fault) => Err(fault),
    }
}

// Adds an operand, and gives the tokens after it.
fn push_part<'a, 'b>(
    out: &mut Vec<Part<'a>>,
    first: bool,
    operand: Operand,
    past: usize,
    ts: &'b [Placed<'a>],
) -> Result<&'b [Placed<'a>], ReadError>
    ensures { Joins part_seen rest_seen result out.old.items out.new.items
        (comma_and_part first operand past (all_seen ts.now)) }
{
    match separated_part(first, operand, past, ts) {
        Ok((part, rest)) => match out.push(part) {
            Ok(()) => Ok(rest),
            Err(_) => Err(ReadError::Memory),
        },
        Err(fault) => Err(ReadError::Fault(fault)),
    }
}

// The operands of a row from some place on.
#[tactic(auto, unfolding(crate::specs::Lines::operand_parts))]
pub(crate) fn operand_parts<'a>(
    out: &mut Vec<Part<'a>>,
    first: bool,
    operands: &[Operand],
    past: usize,
    ts: &[Placed<'a>],
) -> Result<(), ReadError>
    ensures { Adds part_seen result out.old.items out.new.items
        (operand_parts first operands.now past (all_seen ts.now)) }
{
    match operands {
        [] => {
            if ts.len() == 0 {
                Ok(())
            } else {
                Err(ReadError::Fault(wrong(past, ts)))
            }
        }
        [operand, others @ ..] => match push_part(out, first, *operand, past, ts) {
            Ok(rest) => operand_parts(out, false, others, past, rest),
            Err(error) => Err(error),
        },
    }
}

fn is_named(name: &[u8], row: Row) -> bool
    ensures { result ≡ bytes_eq name.now (table row).name }
{
    name == row.name().as_bytes()
}

// The rows after the first.
fn behind(rows: &[Row]) -> &[Row]
    requires { 0 < length rows.now }
    ensures { result.now ≡ drop 1 rows.now }
{
    &rows[1..]
}

// The first row of this name.
#[tactic(auto, using(crate::proofs::Places::find_past, crate::proofs::Places::find_first))]
fn row_among<'b>(name: &[u8], rows: &'b [Row]) -> Option<&'b Row>
    ensures { option_map (λ (r : Bor Row). r.now) result
        ≡ find (λ r. bytes_eq name.now (table r).name) rows.now }
{
    if rows.len() == 0 {
        return None;
    }
    let row = &rows[0];
    if is_named(name, *row) {
        return Some(row);
    }
    row_among(name, behind(rows))
}

/// The row of a name.
#[tactic(auto, unfolding(crate::specs::Lines::row_named))]
pub(crate) fn named_row(name: &[u8]) -> Option<&'static Row>
    ensures { option_map (λ (r : Bor Row). r.now) result ≡ row_named name.now }
{
    rows_in_order();
    row_among(name, &ROWS)
}
