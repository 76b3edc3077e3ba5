//! Names of addresses.

use crate::tests::same;
use crate::tests::table::FILE;
use m161_symbols::{Symbols, push_place};
use std::alloc::{AllocGlobal, Global};
use std::process::Abort;
use std::test::Fail;

/// An address, and its place.
static PLACES: [(u32, &str); 9] = [
    (0, ""),
    (6, ""),
    (7, "<abs>"),
    (8, "<abs+1>"),
    (0x8000_01ff, "<abs+800001f8>"),
    (0x8000_0200, "<main>"),
    (0x8000_02ff, "<main+ff>"),
    (0x8000_0300, "<data>"),
    (0xffff_ffff, "<data+7ffffcff>"),
];

/// A name, and its value.
static VALUES: [(&str, Option<u32>); 7] = [
    ("main", Some(0x8000_0200)),
    ("data", Some(0x8000_0300)),
    ("abs", Some(7)),
    ("und", None),
    ("file.c", None),
    ("mai", None),
    ("", None),
];

#[test]
fn places_of_addresses(rt: HostRuntime) -> Result<(), Fail> {
    let symbols = Symbols::new(rt.alloc(), &FILE)?;
    for row in &PLACES {
        let mut text = String::new(rt.alloc());
        push_place(&mut text, &symbols, row.0)?;
        same(&rt, text.as_str(), row.1);
    }
    Ok(())
}

#[test]
fn nearest_symbols(rt: HostRuntime) -> Result<(), Fail> {
    let symbols = Symbols::new(rt.alloc(), &FILE)?;
    same(&rt, symbols.nearest(6), None);
    same(&rt, symbols.nearest(7), Some(("abs", 0)));
    same(&rt, symbols.nearest(0x8000_0204), Some(("main", 4)));
    same(&rt, symbols.nearest(0x8000_0300), Some(("data", 0)));
    Ok(())
}

#[test]
fn values_of_names(rt: HostRuntime) -> Result<(), Fail> {
    let symbols = Symbols::new(rt.alloc(), &FILE)?;
    let none = Symbols::none(rt.alloc());
    for row in &VALUES {
        same(&rt, (row.0, symbols.value(row.0)), *row);
        same(&rt, none.value(row.0), None);
    }
    same(&rt, none.nearest(0xffff_ffff), None);
    Ok(())
}
