//! The text of traps.

ghost use Rattle.std.specs.Prelude.{◌≡◌, ◌++◌, ℕ, IfOk, None, OnOk, Some, flat_map, slice_index_or, string_bytes};
ghost use Rattle.std.specs.List.{range_with_len};
ghost use Rattle.m161_traps.specs.Shown.{address_text, code_text, line_text, name_of_exception, traps_text, trapping_if, trapping_line, unhandled_line, unhandled_text};

use crate::trapping::Trapping;
use crate::traps::{Trap, TrapLine};
use m161_cop0::Exception;
use m161_text::Word;
use std::alloc::{AllocError, Global};
use std::fmt;
use std::fmt::Write;

// The name of a code.
fn name_of(code: Exception) -> &'static str
    ensures { result.now ≡ name_of_exception code }
{
    match code {
        Exception::Interrupt => "Int",
        Exception::TlbModified => "Mod",
        Exception::TlbLoad => "TLBL",
        Exception::TlbStore => "TLBS",
        Exception::AddressErrorLoad => "AdEL",
        Exception::AddressErrorStore => "AdES",
        Exception::BusErrorFetch => "IBE",
        Exception::BusErrorData => "DBE",
        Exception::SystemCall => "Sys",
        Exception::Breakpoint => "Bp",
        Exception::ReservedInstruction => "RI",
        Exception::CoprocessorUnusable => "CpU",
        Exception::Overflow => "Ov",
    }
}

/// The address of a trap, or a dash where its code has none.
#[derive(Drop)]
struct ShownAddress {
    code: Exception,
    address: u32,
}

impl fmt::Display for ShownAddress {
    ghost output = { λ shown. Some (address_text shown.code shown.address) };

    fn fmt<W: fmt::Write>(&self, f: &mut fmt::Formatter<W>) -> fmt::Result {
        match self.code {
            Exception::TlbModified
            | Exception::TlbLoad
            | Exception::TlbStore
            | Exception::AddressErrorLoad
            | Exception::AddressErrorStore => {
                let address = Word(self.address);
                write!(f, "{address}")
            }
            _ => write!(f, "-"),
        }
    }
}

/// A line, without its end.
#[derive(Drop)]
struct ShownLine(TrapLine);

impl fmt::Display for ShownLine {
    ghost output = { λ shown. Some (line_text shown.0) };

    fn fmt<W: fmt::Write>(&self, f: &mut fmt::Formatter<W>) -> fmt::Result {
        let TrapLine { first, count } = self.0;
        let (p, code, name) = (first.processor, first.code.number(), name_of(first.code));
        let (place, epc) = (first.place, Word(first.epc));
        let address = ShownAddress {
            code: first.code,
            address: first.address,
        };
        write!(
            f,
            "traps {p} {code} {name} {count} first {place} {epc} {address}"
        )
    }
}

/// The text of the lines of traps, each with its end.
///
/// # Errors
/// Memory was refused.
pub fn show_traps(alloc: Global, lines: &[TrapLine]) -> Result<String, AllocError>
    ensures { IfOk result (λ text. string_bytes text ≡ traps_text lines.now) }
{
    let mut text = String::new(alloc);
    for line in lines {
        let shown = ShownLine(*line);
        writeln!(text, "{shown}")?;
    }
    Ok(text)
}

/// A code with its name.
#[derive(Drop)]
struct ShownCode(Exception);

impl fmt::Display for ShownCode {
    ghost output = { λ shown. Some (code_text shown.0) };

    fn fmt<W: fmt::Write>(&self, f: &mut fmt::Formatter<W>) -> fmt::Result {
        let (code, name) = (self.0.number(), name_of(self.0));
        write!(f, "{code} {name}")
    }
}

/// The note on a trap, without its end.
#[derive(Drop)]
struct ShownUnhandled(Trap);

impl fmt::Display for ShownUnhandled {
    ghost output = { λ shown. Some (unhandled_line shown.0) };

    fn fmt<W: fmt::Write>(&self, f: &mut fmt::Formatter<W>) -> fmt::Result {
        let (place, p) = (self.0.place, self.0.processor);
        let (code, vector) = (ShownCode(self.0.code), Word(self.0.vector));
        write!(
            f,
            "s161: note trap {place} {p} {code} {vector} (the image has nothing there)"
        )
    }
}

/// The note on a trap for which the image has nothing, if there is one.
///
/// # Errors
/// Memory was refused.
pub fn show_unhandled(alloc: Global, trap: Option<Trap>) -> Result<String, AllocError>
    ensures { IfOk result (λ text. string_bytes text ≡ unhandled_text trap) }
{
    match trap {
        Some(trap) => {
            let shown = ShownUnhandled(trap);
            format!(in alloc; "{shown}\n")
        }
        None => Ok(String::new(alloc)),
    }
}

/// The note on a processor, without its end.
#[derive(Drop)]
struct ShownTrapping {
    p: usize,
    last: Trapping,
}

impl fmt::Display for ShownTrapping {
    ghost output = { λ shown. Some (trapping_line shown.p shown.last) };

    fn fmt<W: fmt::Write>(&self, f: &mut fmt::Formatter<W>) -> fmt::Result {
        let (p, count, code) = (self.p, self.last.count, ShownCode(self.last.code));
        write!(
            f,
            "s161: note trapping {count} {p} {code} (its last {count} Steps trapped)"
        )
    }
}

// Appends the note on a processor, where at least three last Steps trapped.
fn push_trapping(text: &mut String, p: usize, last: Option<Trapping>) -> Result<(), AllocError>
    ensures { OnOk result (string_bytes text.new ≡ string_bytes text.old ++ trapping_if p last) }
{
    if let Some(last) = last {
        if last.count >= 3 {
            let shown = ShownTrapping { p, last };
            writeln!(text, "{shown}")?;
        }
    }
    Ok(())
}

/// The notes on processors by their last Steps that trapped.
///
/// # Errors
/// Memory was refused.
pub(crate) fn show_trapping(
    alloc: Global,
    tails: &[Option<Trapping>; 32],
) -> Result<String, AllocError>
    ensures { IfOk result (λ text. string_bytes text
        ≡ flat_map (λ p. trapping_if p (slice_index_or tails.now p None)) (range_with_len 0 32)) }
{
    let mut text = String::new(alloc);
    for p in 0..32usize {
        push_trapping(&mut text, p, tails[p])?;
    }
    Ok(text)
}
