//! The word of RAM that is asked for.

ghost use Rattle.std.specs.Prelude.{◌≡◌, IfErr, IfOk};
ghost use Rattle.m161_debug.specs.Conditions.{physical_of};
ghost use Rattle.s161_base.specs.declared.fault.Fault.TheVariants.{Touches};
ghost use Rattle.s161_texts.specs.Traces.{IsAskedWord, IsNoWord, IsWordOf};
ghost use Rattle.s161_texts.specs.helpers.Booted.{IsUnasked};

use m161_debug::address_of_word;
use m161_isa::unmapped;
use m161_symbols::Symbols;
use m161_trace::word_around;
use s161_base::fault::Fault;
use s161_base::naming::image_symbols;
use s161_command::TraceTask;
use std::alloc::Global;

// The physical address of an address in kseg0 or kseg1; any other is taken as physical.
fn physical_of(address: u32) -> u32
    ensures { result ≡ physical_of address }
{
    unmapped(address).unwrap_or(address)
}

// The word of RAM, of so many bytes, that has the byte which a word of the command line stands for.
fn word_of<'a>(symbols: &Symbols, ram: u32, text: &'a str) -> Result<u32, Fault<'a>>
    ensures ok { IfOk result (IsWordOf symbols.now ram text.now) }
    ensures none { IfErr result (λ fault. IsNoWord symbols.now ram text.now) }
    ensures fault { IfErr result (λ fault. fault ≡ Touches text.entry) }
{
    let Some(address) = address_of_word(symbols, text) else {
        return Err(Fault::Touches(text));
    };
    match word_around(ram as usize, physical_of(address)) {
        Some(word) => Ok(word),
        None => Err(Fault::Touches(text)),
    }
}

/// The word of RAM, of so many bytes, that a task over an image's file asks for, if it asks for one.
///
/// # Errors
/// It stands for no byte of RAM; or memory was refused.
pub(crate) fn asked_word<'a>(
    alloc: Global,
    task: &TraceTask<'a>,
    ram: u32,
    file: &[u8],
) -> Result<Option<u32>, Fault<'a>>
    ensures ok { IfOk result (IsAskedWord task.now ram file.now) }
    ensures err { IfErr result (IsUnasked task.now ram file.now) }
{
    match task.touches {
        None => Ok(None),
        Some(text) => {
            let symbols = image_symbols(alloc, task.image, file)?;
            let word = word_of(&symbols, ram, text)?;
            Ok(Some(word))
        }
    }
}
