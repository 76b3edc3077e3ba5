//! The symbols of a file.

ghost use Rattle.std.specs.Prelude.{◌≡◌, ◌+◌, ◌*◌, ◌<◌, ◌≤◌, ◌^◌, ℕ, true, nat_lt, drop, length, All, IfOk, IfSome};
ghost use Rattle.std.specs.List.{list_all};
ghost use Rattle.m161_elf.specs.Symbols.{count_of, entries_among, entry, entry_at, has_entries, has_place, has_strings, is_listed, is_named, is_visible, listed_among, name_of, strings_of, symbol_table, symbols_in, symbols_of, HasName};
ghost use Rattle.m161_elf.specs.helpers.Symbols.{has_zero, shown_length, symbol_at, IsSoundTable};

use crate::header::{file_half, file_word};
use crate::sections::{SHT_STRTAB, SectionHeader, first_symbols, has_sections, linked_section};
use std::alloc::{AllocError, Global};

/// The size of an entry of a symbol table.
pub const SYMBOL_SIZE: usize = 16;

/// The most bytes of all entries of a symbol table together.
const MAX_ENTRIES_SIZE: u32 = 1 << 24;

/// The length of the longest name that is listed: this project's own, so that the work for a symbol
/// has a bound.
pub const LONGEST_NAME: usize = 255;

/// st_shndx of a symbol whose value is absolute.
pub const SHN_ABS: u16 = 0xfff1;

/// The greatest st_shndx of a section.
const LAST_SECTION: u16 = 0xfeff;

/// st_type of a function, which is the last one that is listed; NOTYPE is 0 and OBJECT 1.
const STT_FUNC: u8 = 2;

/// A symbol of a file.
#[derive(Clone, Copy, Debug, PartialEq, Eq)]
pub struct Symbol {
    /// The offset of the first byte of its name in the file.
    pub name_at: usize,
    /// The length of its name in bytes, from 1 to 255.
    pub name_len: usize,
    /// Its value, which is the address that it names.
    pub value: u32,
}

/// The fields of an entry of a symbol table that are used.
#[derive(Clone, Copy)]
pub struct SymbolEntry {
    /// The offset of the name in the strings.
    pub st_name: u32,
    /// The value.
    pub st_value: u32,
    /// The low half of st_info: 0 for NOTYPE, 1 for OBJECT, 2 for FUNC.
    pub st_type: u8,
    /// The number of the section that has the symbol; 0 for none, from ff00 on special.
    pub st_shndx: u16,
}

/// The section of the entries and the section of their names.
#[derive(Clone, Copy)]
pub struct SymbolTable {
    /// The entries, of 16 bytes each.
    pub entries: SectionHeader,
    /// The names, each with a zero byte behind it.
    pub strings: SectionHeader,
}

/// The symbols of a file that have a section or are absolute, are of type NOTYPE, OBJECT or FUNC,
/// and have a name of 1 to 255 bytes from `!` to `~`, in the order of the file's first symbol
/// table. A file without such a table has none, nor has one whose table, or the names of it, aren't
/// all in the file as ELF32 demands. The work grows with the size of the file.
///
/// # Errors
/// Memory was refused.
pub fn symbols(alloc: Global, file: &[u8]) -> Result<Vec<Symbol>, AllocError>
    ensures listed { IfOk result (λ listed. listed.items ≡ symbols_in file.now) }
    ensures names { IfOk result (λ listed. All (HasName file.now) listed.items) }
{
    match symbol_table(file) {
        Some(table) => table_symbols(alloc, file, &table),
        None => Ok(Vec::new(alloc)),
    }
}

/// The first symbol table with its names, if both are sound.
#[tactic(auto, unfolding(crate::specs::Symbols::symbol_table))]
fn symbol_table(file: &[u8]) -> Option<SymbolTable>
    ensures value { result ≡ symbol_table file.now }
    ensures sound { IfSome result (λ t. IsSoundTable file.now t) }
{
    if !has_sections(file) {
        return None;
    }
    let entries = first_symbols(file)?;
    let strings = linked_section(file, entries.sh_link)?;
    if has_entries(file, &entries) && has_strings(file, &strings) {
        Some(SymbolTable { entries, strings })
    } else {
        None
    }
}

fn has_entries(file: &[u8], section: &SectionHeader) -> bool
    ensures { result ≡ has_entries file.now section.now }
{
    let end = u64::from(section.sh_offset) + u64::from(section.sh_size);
    end <= file.len() as u64
        && section.sh_entsize as usize == SYMBOL_SIZE
        && section.sh_size as usize % SYMBOL_SIZE == 0
        && section.sh_size <= MAX_ENTRIES_SIZE
}

fn has_strings(file: &[u8], section: &SectionHeader) -> bool
    ensures { result ≡ has_strings file.now section.now }
{
    let end = u64::from(section.sh_offset) + u64::from(section.sh_size);
    end <= file.len() as u64 && section.sh_type == SHT_STRTAB
}

/// The symbols of a table that is sound.
fn table_symbols(alloc: Global, file: &[u8], table: &SymbolTable) -> Result<Vec<Symbol>, AllocError>
    requires { IsSoundTable file.now table.now }
    ensures listed { IfOk result (λ listed. listed.items ≡ symbols_of file.now table.now) }
    ensures names { IfOk result (λ listed. All (HasName file.now) listed.items) }
{
    if are_named(file, table) {
        listed(alloc, file, table)
    } else {
        Ok(Vec::new(alloc))
    }
}

/// The bytes of the names.
fn strings<'a>(file: &'a [u8], table: &SymbolTable) -> &'a [u8]
    requires { IsSoundTable file.now table.now }
    ensures { result.now ≡ strings_of file.now table.now }
{
    let start = table.strings.sh_offset as usize;
    let end = start + table.strings.sh_size as usize;
    &file[start..end]
}

/// How many entries a symbol table has.
fn count(table: &SymbolTable) -> u32
    ensures { result ≡ count_of table.now }
{
    table.entries.sh_size / SYMBOL_SIZE as u32
}

/// The entry at an offset in the file.
fn entry_at(file: &[u8], at: usize) -> SymbolEntry
    requires { at + 16 ≤ length file.now }
    ensures { result ≡ entry_at file.now at }
{
    SymbolEntry {
        st_name: file_word(file, at),
        st_value: file_word(file, at + 4),
        st_type: file[at + 12] % 16,
        st_shndx: file_half(file, at + 14),
    }
}

/// Entry `i` of a symbol table.
fn entry(file: &[u8], table: &SymbolTable, i: u32) -> SymbolEntry
    requires sound { IsSoundTable file.now table.now }
    requires within { i < count_of table.now }
    ensures { result ≡ entry file.now table.now i }
{
    entry_at(
        file,
        table.entries.sh_offset as usize + SYMBOL_SIZE * i as usize,
    )
}

/// Whether the name of each entry is one of the strings.
fn are_named(file: &[u8], table: &SymbolTable) -> bool
    requires { IsSoundTable file.now table.now }
    ensures { result ≡ list_all (is_named (strings_of file.now table.now))
        (entries_among file.now table.now (count_of table.now)) }
{
    let end = names_end(strings(file, table));
    for i in 0..count(table) {
        let entry = entry(file, table, i);
        if entry.st_name as usize >= end {
            return false;
        }
    }
    true
}

/// How many bytes there are up to and with the last zero byte.
fn names_end(strings: &[u8]) -> usize
    ensures zeros { (place : ℕ) → has_zero (drop place strings.now) ≡ nat_lt place result }
    ensures within { result ≤ length strings.now }
{
    let mut end = strings.len();
    while end > 0 && strings[end - 1] != 0 {
        end -= 1;
    }
    end
}

/// The listed symbols of a table.
fn listed(alloc: Global, file: &[u8], table: &SymbolTable) -> Result<Vec<Symbol>, AllocError>
    requires sound { IsSoundTable file.now table.now }
    requires named { list_all (is_named (strings_of file.now table.now))
        (entries_among file.now table.now (count_of table.now)) ≡ true }
    ensures { IfOk result (λ listed. listed.items
        ≡ listed_among file.now table.now (count_of table.now)) }
{
    let mut listed = Vec::new(alloc);
    for i in 0..count(table) {
        if let Some(symbol) = listed_symbol(file, table, i) {
            listed.push(symbol)?;
        }
    }
    Ok(listed)
}

/// The symbol of entry `i`, if it is listed.
fn listed_symbol(file: &[u8], table: &SymbolTable, i: u32) -> Option<Symbol>
    requires sound { IsSoundTable file.now table.now }
    requires within { i < count_of table.now }
    requires named { list_all (is_named (strings_of file.now table.now))
        (entries_among file.now table.now (count_of table.now)) ≡ true }
    ensures { result ≡ symbol_at file.now table.now i }
{
    let entry = entry(file, table, i);
    if !has_place(&entry) || entry.st_type > STT_FUNC {
        return None;
    }
    let name_len = shown_length(strings(file, table), entry.st_name as usize)?;
    Some(Symbol {
        name_at: table.strings.sh_offset as usize + entry.st_name as usize,
        name_len,
        value: entry.st_value,
    })
}

fn has_place(entry: &SymbolEntry) -> bool
    ensures { result ≡ has_place entry.now }
{
    let shndx = entry.st_shndx;
    (1 <= shndx && shndx <= LAST_SECTION) || shndx == SHN_ABS
}

fn is_visible(byte: u8) -> bool
    ensures { result ≡ is_visible byte }
{
    byte.is_ascii_graphic()
}

/// The length of the name that begins at a place, if it is shown.
fn shown_length(strings: &[u8], at: usize) -> Option<usize>
    requires { has_zero (drop at strings.now) ≡ true }
    ensures { result ≡ shown_length (drop at strings.now) }
{
    for seen in 0..LONGEST_NAME + 1 {
        let byte = strings[at + seen];
        if byte == 0 {
            return if seen > 0 { Some(seen) } else { None };
        }
        if !is_visible(byte) {
            return None;
        }
    }
    None
}
