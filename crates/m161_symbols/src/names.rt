//! The symbols of a file, by name and by address.

ghost use Rattle.std.specs.Prelude.{◌≡◌, [], map, option_map, IfOk};
ghost use Rattle.m161_symbols.specs.Names.{names_in, nearest_in, value_in};
ghost use Rattle.m161_symbols.specs.Table.{read_place, seen};

use crate::named::{Named, Place, Values, named_symbols, nearest, sorted_places, values_by_name};
use indexmap::IndexMap;
use m161_hash::TextState;
use std::alloc::{AllocError, Global};
use std::marker::Model;

/// The symbols of a file; a contract sees their list, each with its name and its value, in the
/// order of the file's table.
#[derive(Drop)]
pub struct Symbols {
    symbols: Vec<Named>,
    by_value: Vec<Place>,
    by_name: Values,
}

impl Model for Symbols {
    ghost use Rattle.std.specs.Prelude.{ℕ, List, map};
    ghost use Rattle.m161_symbols.specs.Table.{seen, AreFound, ArePlaces};

    ghost Value = { List (List ℕ × ℕ) };

    ghost view = { λ s. map seen s.symbols.items };

    ghost invariant = { λ s. ArePlaces (map seen s.symbols.items) s.by_value.items
        × AreFound (map seen s.symbols.items) s.by_name };
}

// Symbols with their places by value and their values by name.
fn with_tables(alloc: Global, file: &[u8], symbols: Vec<Named>) -> Result<Symbols, AllocError>
    ensures { IfOk result (λ found. found ≡ map seen symbols.items) }
{
    let by_value = match sorted_places(alloc, &symbols) {
        Ok(by_value) => by_value,
        Err(error) => return Err(error),
    };
    match values_by_name(alloc, file, &symbols) {
        Ok(by_name) => Ok(Symbols {
            symbols,
            by_value,
            by_name,
        }),
        Err(error) => Err(error),
    }
}

impl Symbols {
    /// The symbols of a file, as `m161_elf::symbols` lists them.
    ///
    /// # Errors
    /// Memory was refused.
    pub fn new(alloc: Global, file: &[u8]) -> Result<Symbols, AllocError>
        ensures { IfOk result (λ symbols. symbols ≡ names_in file.now) }
    {
        let listed = m161_elf::symbols(alloc, file)?;
        match named_symbols(alloc, file, &listed) {
            Ok(symbols) => with_tables(alloc, file, symbols),
            Err(error) => Err(error),
        }
    }

    /// No symbols.
    pub fn none(alloc: Global) -> Symbols
        ensures { result ≡ [] }
    {
        Symbols {
            symbols: Vec::new(alloc),
            by_value: Vec::new(alloc),
            by_name: IndexMap::with_hasher(alloc, TextState::new(b"")),
        }
    }

    /// The value of the first symbol with this name, if there is one.
    pub fn value(&self, name: &str) -> Option<u32>
        ensures { result ≡ value_in self.now name.now }
    {
        match self.by_name.get(name) {
            Some(value) => Some(*value),
            None => None,
        }
    }

    /// The name of the first symbol with the greatest value that isn't above an address, and how
    /// far the address is behind it; `None` if each value is above. A binary search.
    pub fn nearest(&self, address: u32) -> Option<(&str, u32)>
        ensures { option_map read_place result ≡ nearest_in self.now address }
    {
        nearest(&self.symbols, &self.by_value, address)
    }
}
