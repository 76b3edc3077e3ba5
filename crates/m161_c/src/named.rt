//! The symbols of a file.

ghost use Rattle.std.specs.Prelude.{◌≡◌, ◌⊎◌, IfErr, IfOk, None, Some};
ghost use Rattle.m161_symbols.specs.Names.{names_in, nearest_in};
ghost use Rattle.m161_c.specs.Named.{NearestAs, TellsValue, ValueAs};

use crate::session::Session;
use crate::{BAD, NO_MEMORY, NO_SYMBOL};
use m161_symbols::Symbols;
use std::alloc::Global;

// Tells a value, if there is one.
fn tell_value(found: Option<u32>, value: &mut u32) -> u8
    ensures { TellsValue found result value.old value.new }
{
    match found {
        Some(it) => {
            *value = it;
            0
        }
        None => NO_SYMBOL,
    }
}

/// Tells the value of the first symbol of a file with this name.
pub(crate) fn value_of(alloc: Global, file: &[u8], name: &[u8], value: &mut u32) -> u8
    ensures { ValueAs file.now name.now result value.old value.new }
{
    let Ok(name) = std::str::from_utf8(name) else {
        return BAD;
    };
    match Symbols::new(alloc, file) {
        Ok(symbols) => tell_value(symbols.value(name), value),
        Err(_) => NO_MEMORY,
    }
}

// The name of the nearest symbol of a file, and how far an address is behind it.
fn nearest_of(alloc: Global, file: &[u8], address: u32) -> Result<(Vec<u8>, u32), u8>
    ensures ok { IfOk result (λ place.
        nearest_in (names_in file.now) address ≡ Some (place.0.items, place.1)) }
    ensures err { IfErr result (λ answer. (answer ≡ 254)
        ⊎ (answer ≡ 24) × (nearest_in (names_in file.now) address ≡ None)) }
{
    let Ok(symbols) = Symbols::new(alloc, file) else {
        return Err(NO_MEMORY);
    };
    match symbols.nearest(address) {
        Some((name, distance)) => match Vec::from_slice(alloc, name.as_bytes()) {
            Ok(bytes) => Ok((bytes, distance)),
            Err(_) => Err(NO_MEMORY),
        },
        None => Err(NO_SYMBOL),
    }
}

impl Session {
    pub(crate) fn nearest(
        &mut self,
        alloc: Global,
        file: &[u8],
        address: u32,
        distance: &mut u32,
    ) -> u8
        ensures does { NearestAs file.now address result distance.old distance.new self.old self.new }
        ensures kept { self.new.exploring ≡ self.old.exploring }
    {
        match nearest_of(alloc, file, address) {
            Ok((name, behind)) => {
                *distance = behind;
                self.bytes = name;
                0
            }
            Err(answer) => answer,
        }
    }
}
