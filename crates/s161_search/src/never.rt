//! The addresses that no Step is to reach.

ghost use Rattle.std.specs.Prelude.{◌≡◌, ◌++◌, ◌∷◌, [], ℕ, IfErr, IfOk, OnOk, map};
ghost use Rattle.m161_audit.specs.Watch.{AreGood};
ghost use Rattle.m161_debug.specs.Commands.{IsPlace};
ghost use Rattle.s161_search.specs.Never.{AreAddresses};
ghost use Rattle.s161_search.specs.helpers.Begun.{BeginsAt, IsBareFault};
ghost use Rattle.s161_search.specs.helpers.Inputs.{given_of};
ghost use Rattle.s161_search.specs.helpers.Never.{HasNever, IsNeverFault, IsNoAddress, IsWordFault};

use crate::audit::fault_of_audit;
use crate::inputs::Inputs;
use m161::{Console, Tlb};
use m161_debug::address_of_word;
use m161_judge::{Booted, judge_events};
use m161_symbols::Symbols;
use s161_base::fault::Fault;
use s161_base::naming::image_symbols;
use s161_command::SearchTask;
use std::alloc::{AllocError, Global};

/// Looks whether a watch is bad: the audit of no event says so.
///
/// # Errors
/// One is; or memory was refused.
pub(crate) fn check_watches<'a>(
    alloc: Global,
    booted: &Booted<Tlb, Console>,
    inputs: &Inputs,
) -> Result<(), Fault<'a>>
    requires { BeginsAt (given_of inputs.now) booted.now }
    ensures good { IfOk result (λ _. (k : ℕ) → AreGood (given_of inputs.now).conf.ram (given_of inputs.now).watches k) }
    ensures fault { IfErr result (IsBareFault (given_of inputs.now)) }
{
    match judge_events(alloc, booted, &[], &inputs.goal()) {
        Ok(_) => Ok(()),
        Err(error) => Err(fault_of_audit(error, &inputs.file, inputs.first.conf.ram)),
    }
}

// The address of a word.
fn address_of<'a>(symbols: &Symbols, word: &'a str) -> Result<u32, Fault<'a>>
    ensures ok { IfOk result (λ address. IsPlace symbols.now address word.now) }
    ensures err { IfErr result (IsNoAddress symbols.now word.now) }
{
    match address_of_word(symbols, word) {
        Some(address) => Ok(address),
        None => Err(Fault::Never(word)),
    }
}

// Adds an address behind the others.
fn push_address(addresses: &mut Vec<u32>, address: u32) -> Result<(), AllocError>
    ensures { OnOk result (addresses.new.items ≡ addresses.old.items ++ address ∷ []) }
{
    addresses.push(address)?;
    Ok(())
}

// The addresses of these words.
fn addresses_of<'a>(
    alloc: Global,
    symbols: &Symbols,
    words: &[&'a str],
) -> Result<Vec<u32>, Fault<'a>>
    ensures ok { IfOk result (λ addresses.
        AreAddresses symbols.now (map (λ word. word.now) words.now) addresses.items) }
    ensures err { IfErr result (IsWordFault symbols.now (map (λ word. word.now) words.now)) }
{
    let mut addresses = Vec::new(alloc);
    for word in words {
        let address = address_of(symbols, *word)?;
        push_address(&mut addresses, address)?;
    }
    Ok(addresses)
}

/// What was read, with the addresses that these words stand for.
///
/// # Errors
/// A watch is bad; or the first word that stands for no address; or memory was refused.
#[tactic(auto, using(crate::proofs::Failing::bare_is_never))]
pub(crate) fn with_never<'a>(
    alloc: Global,
    booted: &Booted<Tlb, Console>,
    task: SearchTask<'a>,
    words: &[&'a str],
    inputs: Inputs,
) -> Result<Inputs, Fault<'a>>
    requires { BeginsAt (given_of inputs) booted.now }
    ensures ok { IfOk result (HasNever task.entry (map (λ word. word.now) words.now) (given_of inputs)) }
    ensures err { IfErr result (IsNeverFault task.entry (map (λ word. word.now) words.now) (given_of inputs)) }
{
    if words.is_empty() {
        return Ok(Inputs {
            never: Vec::new(alloc),
            ..inputs
        });
    }
    check_watches(alloc, booted, &inputs)?;
    let symbols = image_symbols(alloc, task.image, &inputs.file)?;
    let never = addresses_of(alloc, &symbols, words)?;
    Ok(Inputs { never, ..inputs })
}
