//! The symbols: each label with its address.

ghost use Rattle.std.specs.Prelude.{◌≡◌, ◌<◌, ◌^◌, ◌++◌, OnOk, is_some, true, List, None, ◌∷◌, []};
ghost use Rattle.m161_asm.specs.Lines as lines;
ghost use Rattle.m161_asm.specs.Text.{label_address, symbol, new_label, symbols_in};
ghost use Rattle.m161_asm.specs.Seen.{symbols_seen};
ghost use Rattle.m161_asm.specs.helpers.Seen.{Gives, label_seen};
ghost use Rattle.m161_asm.specs.helpers.Passes.{IsNew};

use crate::error::ErrorKind;
use crate::program::SymbolTable;
use crate::statement::{Label, ReadError, SourceFault};
use std::alloc::Global;

/// The address of a label.
pub(crate) fn label_address(symbols: &SymbolTable, name: &str) -> Option<u32>
    ensures { result ≡ label_address (symbols_seen symbols.now) name.now }
{
    match symbols.get(name) {
        Some(address) => Some(*address),
        None => None,
    }
}

/// A label that already exists is a fault.
pub(crate) fn new_label(symbols: &SymbolTable, label: Option<Label<'_>>) -> Result<(), SourceFault>
    ensures value { (above : List lines.SourceLine) → symbols_seen symbols.now ≡ symbols_in above →
        Gives (λ _. tt) result (new_label above (label_seen label.entry)) }
    ensures new { OnOk result (IsNew (symbols_seen symbols.now) (label_seen label.entry)) }
{
    let Some(label) = label else {
        return Ok(());
    };
    match label_address(symbols, label.name) {
        None => Ok(()),
        Some(_) => Err(SourceFault {
            kind: ErrorKind::DoubleLabel,
            column: label.column,
        }),
    }
}

// Adds a symbol that doesn't exist yet.
fn add(alloc: Global, symbols: &mut SymbolTable, name: &str, address: u32) -> Result<(), ReadError>
    requires { label_address (symbols_seen symbols.old) name.now ≡ None }
    ensures { OnOk result (symbols_seen symbols.new ≡ symbols_seen symbols.old ++
        ((name.now, address) ∷ [])) }
{
    let key = String::from_str(alloc, name)?;
    symbols.insert(key, address)?;
    Ok(())
}

/// Adds the symbol of a line, if it has one.
pub(crate) fn define(
    alloc: Global,
    symbols: &mut SymbolTable,
    label: Option<Label<'_>>,
    address: u64,
) -> Result<(), ReadError>
    requires new { IsNew (symbols_seen symbols.old) (label_seen label) }
    requires small { is_some label ≡ true → address < 2 ^ 32 }
    ensures { OnOk result (symbols_seen symbols.new ≡ symbols_seen symbols.old ++ symbol
        (label_seen label.entry) address) }
{
    match label {
        Some(label) => add(alloc, symbols, label.name, address as u32),
        None => Ok(()),
    }
}
