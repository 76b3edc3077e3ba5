//! Words to assembly text.
//!
//! ```text
//! nop                      the word 00000000
//! addu $10, $8, $9         a canonical word: its row's name and its operands, in the table's order
//! lw $12, -4($29)          an offset with its sign, in decimal, before its base
//! ori $8, $8, 0x5678       an unsigned immediate: four hexadecimal digits
//! beq $8, $0, 0x80000200   a target: the address, eight digits
//! .word 0x00000060         any other word
//! ```
//!
//! Each word has one text at an address, which is assembled there to that word and to no other.
//! Numbers are in lower case and registers in decimal. With names the general registers stand as
//! `$t0` and so on, and those of coprocessor 0 keep their numbers. The form is this project's own,
//! in the syntax of MIPS assemblers. With symbols the place of a target stands behind it, as in
//! `beq $8, $0, 0x80000200 <main>`.
#![tactic(auto)]

ghost use Rattle.std.specs.Prelude.{◌≡◌, ◌+◌, ◌*◌, ◌≤◌, ◌<◌, ◌^◌, ◌++◌, [], IfOk, Some, None, false, if◌then◌else◌, is_ok, length, option_map, slice_get, slice_index_or, string_bytes, string_capacity, string_len};
ghost use Rattle.m161_asm.specs.Tokens.{register_names};
ghost use Rattle.m161_isa.specs.Address.{branch_target, jump_target};
ghost use Rattle.m161_isa.specs.Table.{table, width_of};
ghost use Rattle.m161_symbols.specs.Names.{behind_of};
ghost use Rattle.m161_symbols.specs.Table.{read_place};
ghost use Rattle.m161_dis.specs.Canon.{canon, canon_as, canon_by, canon_named, canon_with, canonical_row, hex_number, lead_of, operand_text, operands_text, register_in, register_text, signed_text, target_among, target_of, target_of_operand, target_place};

mod laws;
mod naming;

pub use laws::{has_no_places, survives_disassembling};
use m161_asm::register_name;
use m161_decode::{is_canonical, row_that_fits};
use m161_isa::{Operand, Row};
use m161_symbols::{PLACE_MARKS, Symbols, put_place_behind};
use m161_text::{put, put_hex, put_short_decimal};
pub use naming::{Naming, Style};
use std::alloc::{AllocError, Global};

/// The most bytes of a text: of a name, and of three operands.
const LONGEST: usize = 56;

/// The text of the word at an address.
///
/// # Errors
/// Memory was refused.
pub fn line(alloc: Global, word: u32, at: u32) -> Result<String, AllocError>
    ensures { IfOk result (λ text. string_bytes text ≡ canon word at) }
{
    let mut text = String::new(alloc);
    push_line(&mut text, Naming::Numbers, word, at)?;
    Ok(text)
}

/// The same text with the names of the general registers.
///
/// # Errors
/// Memory was refused.
pub fn named_line(alloc: Global, word: u32, at: u32) -> Result<String, AllocError>
    ensures { IfOk result (λ text. string_bytes text ≡ canon_named word at) }
{
    let mut text = String::new(alloc);
    push_line(&mut text, Naming::Names, word, at)?;
    Ok(text)
}

/// Appends the text of the word at an address, in either naming.
///
/// # Errors
/// Memory was refused. The text is as before then.
pub fn push_line(text: &mut String, naming: Naming, word: u32, at: u32) -> Result<(), AllocError>
    ensures { string_bytes text.new ≡ (if is_ok result
        then string_bytes text.old ++ canon_as naming word at
        else string_bytes text.old) }
{
    text.reserve(LONGEST)?;
    put_line(text, naming, word, at);
    Ok(())
}

/// Appends the same text, and behind the target of a branch or a jump its place: ` <name>` or
/// ` <name+N>` by the nearest symbol, or nothing if there is none.
///
/// # Errors
/// Memory was refused. The text is as before then.
pub fn push_line_with(
    text: &mut String,
    style: &Style,
    word: u32,
    at: u32,
) -> Result<(), AllocError>
    ensures { string_bytes text.new ≡ (if is_ok result
        then string_bytes text.old ++ canon_with style.now word at
        else string_bytes text.old) }
{
    let Some((name, distance)) = place_of_target(&style.symbols, word, at) else {
        return push_line(text, style.registers, word, at);
    };
    text.reserve(LONGEST + name.len() + PLACE_MARKS)?;
    put_line(text, style.registers, word, at);
    put_place_behind(text, name, distance);
    Ok(())
}

// The place of a word's target, if it has one with a place.
fn place_of_target(symbols: &Symbols, word: u32, at: u32) -> Option<(&str, u32)>
    ensures { behind_of (option_map read_place result)
        ≡ target_place symbols.now (target_of word at) }
{
    symbols.nearest(target(word, at)?)
}

// The target of a word, if it is a branch or a jump.
fn target(word: u32, at: u32) -> Option<u32>
    ensures { result ≡ target_of word at }
{
    target_among(row_if_canonical(word)?.operands(), word, at)
}

fn target_among(operands: &[Operand], word: u32, at: u32) -> Option<u32>
    ensures { result ≡ target_among word at operands.now }
{
    match operands {
        [] => None,
        [first, rest @ ..] => match operand_target(*first, first.number(word), at) {
            Some(target) => Some(target),
            None => target_among(rest, word, at),
        },
    }
}

// The address that an operand names.
fn operand_target(operand: Operand, number: u32, at: u32) -> Option<u32>
    requires { number < 2 ^ width_of operand }
    ensures { result ≡ target_of_operand at operand number }
{
    match operand {
        Operand::Branch => Some(branch_target(at, number)),
        Operand::Jump => Some(jump_target(at, number)),
        Operand::Rd
        | Operand::Rs
        | Operand::Rt
        | Operand::Cop0
        | Operand::Amount
        | Operand::Signed
        | Operand::Offset
        | Operand::Unsigned
        | Operand::Base => None,
    }
}

// Appends the text of a word, where there is room for the longest.
fn put_line(text: &mut String, naming: Naming, word: u32, at: u32)
    requires { string_len text.old + LONGEST ≤ string_capacity text.old }
    ensures bytes { string_bytes text.new ≡ string_bytes text.old ++ canon_as naming word at }
    ensures len { string_len text.new ≤ string_len text.old + LONGEST }
    ensures capacity { string_capacity text.old ≤ string_capacity text.new }
{
    if word == 0 {
        put(text, "nop");
    } else {
        put_word(text, naming, word, at);
    }
}

// A word other than `nop`: by its row, or as data.
fn put_word(text: &mut String, naming: Naming, word: u32, at: u32)
    requires { string_len text.old + LONGEST ≤ string_capacity text.old }
    ensures bytes { string_bytes text.new
        ≡ string_bytes text.old ++ canon_by naming word at (canonical_row word) }
    ensures len { string_len text.new ≤ string_len text.old + LONGEST }
    ensures capacity { string_capacity text.old ≤ string_capacity text.new }
{
    match row_if_canonical(word) {
        Some(row) => {
            put(text, name_of(row));
            put_operands(text, naming, operands_of(row), " ", word, at);
        }
        None => {
            put(text, ".word ");
            put_hex_number(text, 8, word);
        }
    }
}

// A row's name.
#[tactic(auto, using(crate::proofs::Short::short_name))]
fn name_of(row: Row) -> &'static str
    ensures value { result.now ≡ (table row).name }
    ensures short { length result.now ≤ 8 }
{
    row.name()
}

// A row's operands.
#[tactic(auto, using(crate::proofs::Short::few_operands))]
fn operands_of(row: Row) -> &'static [Operand]
    ensures value { result.now ≡ (table row).operands }
    ensures few { length result.now ≤ 3 }
{
    row.operands()
}

// The row of a canonical word.
#[tactic(auto, using(crate::proofs::Rows::canonical_is, crate::proofs::Rows::other_is))]
fn row_if_canonical(word: u32) -> Option<Row>
    ensures { result ≡ canonical_row word }
{
    if is_canonical(word) {
        row_that_fits(word)
    } else {
        None
    }
}

// Operands, with `lead` before the first: 16 bytes at most for each.
fn put_operands(
    text: &mut String,
    naming: Naming,
    operands: &[Operand],
    lead: &str,
    word: u32,
    at: u32,
)
    requires room { string_len text.old + 16 * length operands.now ≤ string_capacity text.old }
    requires lead { length lead.now ≤ 2 }
    ensures bytes { string_bytes text.new
        ≡ string_bytes text.old ++ operands_text naming word at lead.now operands.now }
    ensures len { string_len text.new ≤ string_len text.old + 16 * length operands.now }
    ensures capacity { string_capacity text.old ≤ string_capacity text.new }
{
    match operands {
        [] => {}
        [first, rest @ ..] => {
            put_operand(text, naming, *first, lead, first.number(word), at);
            put_operands(text, naming, rest, ", ", word, at);
        }
    }
}

// An operand, with `lead` before it unless it is a base: 16 bytes at most.
fn put_operand(
    text: &mut String,
    naming: Naming,
    operand: Operand,
    lead: &str,
    number: u32,
    at: u32,
)
    requires number { number < 2 ^ width_of operand }
    requires room { string_len text.old + 16 ≤ string_capacity text.old }
    requires lead { length lead.now ≤ 2 }
    ensures bytes { string_bytes text.new ≡ string_bytes text.old
        ++ lead_of operand lead.now ++ operand_text naming at operand number }
    ensures len { string_len text.new ≤ string_len text.old + 16 }
    ensures capacity { string_capacity text.old ≤ string_capacity text.new }
{
    match operand {
        Operand::Rd | Operand::Rs | Operand::Rt => {
            put(text, lead);
            put_register(text, naming, number);
        }
        Operand::Cop0 => {
            put(text, lead);
            put_number(text, number);
        }
        Operand::Amount => {
            put(text, lead);
            put_short_decimal(text, number);
        }
        Operand::Signed | Operand::Offset => {
            put(text, lead);
            put_signed(text, number);
        }
        Operand::Unsigned => {
            put(text, lead);
            put_hex_number(text, 4, number);
        }
        Operand::Base => {
            put(text, "(");
            put_register(text, naming, number);
            put(text, ")");
        }
        Operand::Branch => {
            put(text, lead);
            put_hex_number(text, 8, branch_target(at, number));
        }
        Operand::Jump => {
            put(text, lead);
            put_hex_number(text, 8, jump_target(at, number));
        }
    }
}

// A register by its number: 11 bytes at most.
fn put_number(text: &mut String, number: u32)
    requires { string_len text.old + 11 ≤ string_capacity text.old }
    ensures bytes { string_bytes text.new ≡ string_bytes text.old ++ register_text number }
    ensures len { string_len text.new ≤ string_len text.old + 11 }
    ensures capacity { string_capacity text.old ≤ string_capacity text.new }
{
    put(text, "$");
    put_short_decimal(text, number);
}

// A register's name.
#[tactic(auto, using(crate::proofs::Short::short_register))]
fn name_of_register(number: u32) -> &'static str
    requires { number < 32 }
    ensures value { result.now ≡ slice_index_or register_names number [] }
    ensures short { length result.now ≤ 4 }
{
    register_name(number)
}

// A general register: 11 bytes at most.
fn put_register(text: &mut String, naming: Naming, number: u32)
    requires number { number < 32 }
    requires room { string_len text.old + 11 ≤ string_capacity text.old }
    ensures bytes { string_bytes text.new ≡ string_bytes text.old ++ register_in naming number }
    ensures len { string_len text.new ≤ string_len text.old + 11 }
    ensures capacity { string_capacity text.old ≤ string_capacity text.new }
{
    match naming {
        Naming::Numbers => put_number(text, number),
        Naming::Names => {
            put(text, "$");
            put(text, name_of_register(number));
        }
    }
}

// `0x` and the last digits of a number, eight at most.
fn put_hex_number(text: &mut String, digits: u32, number: u32)
    requires few { digits ≤ 8 }
    requires room { string_len text.old + 10 ≤ string_capacity text.old }
    ensures bytes { string_bytes text.new ≡ string_bytes text.old ++ hex_number digits number }
    ensures len { string_len text.new ≤ string_len text.old + 10 }
    ensures capacity { string_capacity text.old ≤ string_capacity text.new }
{
    put(text, "0x");
    put_hex(text, digits, number);
}

// A field of 16 bits as a signed number: 11 bytes at most.
fn put_signed(text: &mut String, number: u32)
    requires number { number < 2 ^ 16 }
    requires room { string_len text.old + 11 ≤ string_capacity text.old }
    ensures bytes { string_bytes text.new ≡ string_bytes text.old ++ signed_text number }
    ensures len { string_len text.new ≤ string_len text.old + 11 }
    ensures capacity { string_capacity text.old ≤ string_capacity text.new }
{
    if number < 0x8000 {
        put_short_decimal(text, number);
    } else {
        put(text, "-");
        put_short_decimal(text, 0x1_0000 - number);
    }
}

// The target of a branch.
fn branch_target(at: u32, number: u32) -> u32
    requires { number < 2 ^ 16 }
    ensures { result ≡ branch_target at number }
{
    let beyond = if number < 0x8000 { 0 } else { 0xfffc_0000 };
    at.wrapping_add(4)
        .wrapping_add(4 * number)
        .wrapping_add(beyond)
}

// The target of a jump.
fn jump_target(at: u32, number: u32) -> u32
    requires { number < 2 ^ 26 }
    ensures { result ≡ jump_target at number }
{
    at.wrapping_add(4) / 0x1000_0000 * 0x1000_0000 + 4 * number
}
