//! How registers and addresses are shown in instructions.

ghost use Rattle.std.specs.Prelude.{◌≡◌, [], if◌then◌else◌, IfOk};
ghost use Rattle.s161_base.specs.Naming.{image_symbols, naming_of, style_of};

use crate::sample::{is_sample, sample_symbols};
use m161_dis::{Naming, Style};
use m161_symbols::Symbols;
use s161_command::Registers;
use std::alloc::{AllocError, Global};

/// How a command's option has registers shown.
pub fn naming_of(registers: Registers) -> Naming
    ensures { result ≡ naming_of registers }
{
    match registers {
        Registers::Numbered => Naming::Numbers,
        Registers::Named => Naming::Names,
    }
}

/// The symbols by which an image's addresses are named: the labels of its source for the sample, those
/// of the file's symbol table for another.
///
/// # Errors
/// Memory was refused.
#[tactic(auto, unfolding(crate::specs::Naming::image_symbols))]
pub fn image_symbols(alloc: Global, name: &str, file: &[u8]) -> Result<Symbols, AllocError>
    ensures { IfOk result (λ symbols. symbols ≡ image_symbols name.now file.now) }
{
    if is_sample(name) {
        sample_symbols(alloc)
    } else {
        Symbols::new(alloc, file)
    }
}

// These, if they are asked for.
fn symbols_of(alloc: Global, symbols: bool, name: &str, file: &[u8]) -> Result<Symbols, AllocError>
    ensures { IfOk result (λ found. found
        ≡ (if symbols then image_symbols name.now file.now else [])) }
{
    if symbols {
        image_symbols(alloc, name, file)
    } else {
        Ok(Symbols::none(alloc))
    }
}

/// How a command's options have registers and addresses shown, for an image of a name, with this
/// file. The names of addresses, if they are asked for, are the labels of its source for the sample,
/// and those of the file's symbol table for another.
///
/// # Errors
/// Memory was refused.
pub fn style_of(
    alloc: Global,
    registers: Registers,
    symbols: bool,
    name: &str,
    file: &[u8],
) -> Result<Style, AllocError>
    ensures { IfOk result (λ style. style ≡ style_of registers symbols name.now file.now) }
{
    Ok(Style {
        registers: naming_of(registers),
        symbols: symbols_of(alloc, symbols, name, file)?,
    })
}
