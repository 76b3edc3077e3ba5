//! The parts of a table of names.

ghost use Rattle.std.specs.Prelude.{◌≡◌, ◌≤◌, ◌<◌, ℕ, map, filter, length, string_bytes, All, IfOk, IfSome, OnOk, option_map};
ghost use Rattle.m161_elf.specs.Symbols.{name_bytes, HasName};
ghost use Rattle.m161_symbols.specs.Names.{named, nearest_in, symbol_below};
ghost use Rattle.m161_symbols.specs.helpers.{numbered, places_from, with_new, Splits};
ghost use Rattle.m161_symbols.specs.Table.{entries_seen, has_value, seen, AreFound, ArePlaces, IsRising, read_place};

use indexmap::IndexMap;
use m161_elf::Symbol;
use m161_hash::TextState;
use std::alloc::{AllocError, Global};

/// A symbol.
#[derive(Drop)]
pub struct Named {
    pub name: String,
    pub value: u32,
}

/// The values of symbols by their names, with the hash of the file.
pub(crate) type Values = IndexMap<String, u32, TextState>;

/// A value, and the number of a symbol that has it.
#[derive(Clone, Copy)]
pub struct Place {
    pub value: u32,
    pub number: usize,
}

/// The name of a symbol.
fn name(alloc: Global, file: &[u8], symbol: &Symbol) -> Result<String, AllocError>
    requires { HasName file.now symbol.now }
    ensures { IfOk result (λ name. string_bytes name ≡ name_bytes file.now symbol.now) }
{
    let mut name = String::new(alloc);
    let bytes = &file[symbol.name_at..symbol.name_at + symbol.name_len];
    for byte in bytes {
        name.push(*byte as char)?;
    }
    Ok(name)
}

/// The symbols with their names.
pub(crate) fn named_symbols(
    alloc: Global,
    file: &[u8],
    listed: &[Symbol],
) -> Result<Vec<Named>, AllocError>
    requires { All (HasName file.now) listed.now }
    ensures { IfOk result (λ symbols. map seen symbols.items ≡ map (named file.now) listed.now) }
{
    let mut symbols = Vec::new(alloc);
    for symbol in listed {
        let name = name(alloc, file, symbol)?;
        symbols.push(Named {
            name,
            value: symbol.value,
        })?;
    }
    Ok(symbols)
}

/// The value of each symbol with its number.
fn places(alloc: Global, symbols: &[Named]) -> Result<Vec<Place>, AllocError>
    ensures { IfOk result (λ places. places.items ≡ places_from 0 (map seen symbols.now)) }
{
    let mut places = Vec::new(alloc);
    for number in 0..symbols.len() {
        let symbol = &symbols[number];
        places.push(Place {
            value: symbol.value,
            number,
        })?;
    }
    Ok(places)
}

/// Sorts places by their values; those of one value stay in their order.
fn sort(places: &mut Vec<Place>) -> Result<(), AllocError>
    ensures rising { OnOk result (IsRising places.new.items) }
    ensures same { OnOk result ((value : ℕ) →
        filter (has_value value) places.new.items ≡ filter (has_value value) places.old.items) }
{
    places.sort_by_key(|place| place.value)
}

/// How many places have a value below a bound, by binary search.
fn count_below(places: &[Place], bound: u64) -> usize
    requires { IsRising places.now }
    ensures { Splits bound result places.now }
{
    let mut low = 0;
    let mut high = places.len();
    while low < high {
        let middle = low + (high - low) / 2;
        if u64::from(places[middle].value) < bound {
            low = middle + 1;
        } else {
            high = middle;
        }
    }
    low
}

// The number of the first symbol with the greatest value that isn't above an address.
fn nearest_number(symbols: &[Named], places: &[Place], address: u32) -> Option<usize>
    requires { ArePlaces (map seen symbols.now) places.now }
    ensures value { numbered (map seen symbols.now) result
        ≡ symbol_below (map seen symbols.now) address }
    ensures within { IfSome result (λ number. number < length symbols.now) }
{
    let end = count_below(places, u64::from(address) + 1);
    if end == 0 {
        return None;
    }
    let first = count_below(places, u64::from(places[end - 1].value));
    Some(places[first].number)
}

/// The name of the first symbol with the greatest value that isn't above an address, and how far the
/// address is behind it.
pub(crate) fn nearest<'a>(
    symbols: &'a [Named],
    places: &[Place],
    address: u32,
) -> Option<(&'a str, u32)>
    requires { ArePlaces (map seen symbols.now) places.now }
    ensures { option_map read_place result ≡ nearest_in (map seen symbols.now) address }
{
    match nearest_number(symbols, places, address) {
        Some(number) => {
            let symbol = &symbols[number];
            Some((symbol.name.as_str(), address - symbol.value))
        }
        None => None,
    }
}

/// The place of each symbol, by values.
pub(crate) fn sorted_places(alloc: Global, symbols: &[Named]) -> Result<Vec<Place>, AllocError>
    ensures { IfOk result (λ places. ArePlaces (map seen symbols.now) places.items) }
{
    let mut places = places(alloc, symbols)?;
    sort(&mut places)?;
    Ok(places)
}

/// Adds a symbol whose name isn't there yet.
fn add_name(alloc: Global, by_name: &mut Values, symbol: &Named) -> Result<(), AllocError>
    ensures { OnOk result (entries_seen by_name.new
        ≡ with_new (entries_seen by_name.old) (seen symbol.now)) }
{
    let name = symbol.name.as_str();
    if by_name.contains_key(name) {
        return Ok(());
    }
    let key = String::from_str(alloc, name)?;
    by_name.insert(key, symbol.value)?;
    Ok(())
}

/// The value of each name: that of the first symbol that has it. The hash is that of the file.
pub(crate) fn values_by_name(
    alloc: Global,
    file: &[u8],
    symbols: &[Named],
) -> Result<Values, AllocError>
    ensures { IfOk result (λ by_name. AreFound (map seen symbols.now) by_name) }
{
    let mut by_name = IndexMap::with_hasher(alloc, TextState::new(file));
    for symbol in symbols {
        add_name(alloc, &mut by_name, symbol)?;
    }
    Ok(by_name)
}
