//! Files that are built of names and values, in any order.

use crate::tests::same;
use m161_elf::symbols;
use m161_symbols::{Symbols, push_place};
use std::alloc::{AllocError, AllocGlobal, Global};
use std::process::Abort;
use std::test::Fail;

/// The file's header without e_shoff.
const BEFORE: [u8; 32] = [
    0x7f, b'E', b'L', b'F', 1, 2, 1, 0, 0, 0, 0, 0, 0, 0, 0, 0, 0, 2, 0, 8, 0, 0, 0, 1, 0x80, 0, 0,
    0, 0, 0, 0, 0,
];

/// The fields behind it: no program header, and three section headers of 40 bytes.
const BEHIND: [u8; 16] = [0, 0, 0, 0, 0, 52, 0, 0, 0, 0, 0, 40, 0, 3, 0, 0];

/// A length as a word.
fn word(length: usize) -> u32 {
    u32::try_from(length).unwrap_or(u32::MAX)
}

fn push_words(bytes: &mut Vec<u8>, words: &[u32]) -> Result<(), AllocError> {
    for word in words {
        bytes.extend_from_slice(&word.to_be_bytes())?;
    }
    Ok(())
}

/// A section header: the type, and where its bytes are; of symbols the link to their names, one
/// local symbol and the size of an entry.
fn push_section(
    file: &mut Vec<u8>,
    kind: u32,
    offset: u32,
    size: u32,
    link: u32,
) -> Result<(), AllocError> {
    let entry_size = if kind == 2 { 16 } else { 0 };
    let locals = if kind == 2 { 1 } else { 0 };
    push_words(
        file,
        &[0, kind, 0, 0, offset, size, link, locals, 4, entry_size],
    )
}

/// The entries of symbols that are absolute, and their names.
fn entries_of(alloc: Global, listed: &[(&str, u32)]) -> Result<(Vec<u8>, Vec<u8>), AllocError> {
    let mut entries = Vec::from_slice(alloc, &[0; 16])?;
    let mut names = Vec::from_slice(alloc, &[0])?;
    for (name, value) in listed {
        push_words(&mut entries, &[word(names.len()), *value, 0])?;
        entries.extend_from_slice(&[0x10, 0, 0xff, 0xf1])?;
        names.extend_from_slice(name.as_bytes())?;
        names.push(0)?;
    }
    Ok((entries, names))
}

/// A file with these symbols: its header, their entries, their names, and the section headers.
fn file_with(alloc: Global, listed: &[(&str, u32)]) -> Result<Vec<u8>, AllocError> {
    let (entries, names) = entries_of(alloc, listed)?;
    let names_at = word(entries.len()).saturating_add(52);
    let sections_at = word(names.len()).saturating_add(names_at);
    let mut file = Vec::from_slice(alloc, &BEFORE)?;
    push_words(&mut file, &[sections_at])?;
    file.extend_from_slice(&BEHIND)?;
    file.extend_from_slice(&entries)?;
    file.extend_from_slice(&names)?;
    push_section(&mut file, 0, 0, 0, 0)?;
    push_section(&mut file, 2, 52, word(entries.len()), 2)?;
    push_section(&mut file, 3, names_at, word(names.len()), 0)?;
    Ok(file)
}

/// Symbols out of order; two have one value, and two have one name.
static MIXED: [(&str, u32); 7] = [
    ("c", 0x8000_3000),
    ("a", 0x8000_1000),
    ("top", 0xffff_ffff),
    ("b", 0x8000_2000),
    ("second", 0x8000_1000),
    ("c", 0x8000_4000),
    ("low", 0x10),
];

/// An address, and its place.
static PLACES: [(u32, &str); 17] = [
    (0, ""),
    (0xf, ""),
    (0x10, "<low>"),
    (0x1f, "<low+f>"),
    (0x20, "<low+10>"),
    (0x10f, "<low+ff>"),
    (0x110, "<low+100>"),
    (0x100f, "<low+fff>"),
    (0x1010, "<low+1000>"),
    (0x8000_0fff, "<low+80000fef>"),
    (0x8000_1000, "<a>"),
    (0x8000_1fff, "<a+fff>"),
    (0x8000_2001, "<b+1>"),
    (0x8000_3fff, "<c+fff>"),
    (0x8000_4000, "<c>"),
    (0xffff_fffe, "<c+7fffbffe>"),
    (0xffff_ffff, "<top>"),
];

#[test]
fn places_among_mixed_symbols(rt: HostRuntime) -> Result<(), Fail> {
    let file = file_with(rt.alloc(), &MIXED)?;
    let symbols = Symbols::new(rt.alloc(), &file)?;
    for row in &PLACES {
        let mut text = String::from_str(rt.alloc(), "at ")?;
        push_place(&mut text, &symbols, row.0)?;
        let place = text.strip_prefix("at ").unwrap_or("?");
        same(&rt, (row.0, place), *row);
    }
    same(&rt, symbols.value("c"), Some(0x8000_3000));
    same(&rt, symbols.value("second"), Some(0x8000_1000));
    same(&rt, symbols.value("top"), Some(0xffff_ffff));
    same(&rt, symbols.value("C"), None);
    Ok(())
}

// How many symbols a file has with one symbol, whose name has this length.
fn count_of_length(alloc: Global, length: usize) -> Result<usize, Fail> {
    let mut name = String::new(alloc);
    for _byte in 0..length {
        name.push('x')?;
    }
    let file = file_with(alloc, &[(name.as_str(), 7)])?;
    Ok(symbols(alloc, &file)?.len())
}

#[test]
fn lengths_of_names(rt: HostRuntime) -> Result<(), Fail> {
    for (length, count) in [(0, 0), (1, 1), (255, 1), (256, 0)] {
        same(
            &rt,
            (length, count_of_length(rt.alloc(), length)?),
            (length, count),
        );
    }
    Ok(())
}
