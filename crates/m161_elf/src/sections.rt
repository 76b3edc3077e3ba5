//! The section headers of a file.

ghost use Rattle.std.specs.Prelude.{◌≡◌, ◌+◌, ◌<◌, ◌≤◌, true, find, length, IfNone, IfSome, IsTrue};
ghost use Rattle.std.specs.List.{slice_get};
ghost use Rattle.m161_elf.specs.Symbols.{e_shnum, e_shoff, has_sections, is_symbol_table, section, section_at, sections};

use crate::fault::is_not_elf32_big;
use crate::header::{HEADER_SIZE, file_half, file_word};

/// The offset of e_shoff.
const E_SHOFF: usize = 32;

/// The offset of e_shentsize.
const E_SHENTSIZE: usize = 46;

/// The offset of e_shnum.
const E_SHNUM: usize = 48;

/// The size of a section header.
pub const SECTION_HEADER_SIZE: u16 = 40;

/// sh_type of a symbol table.
pub const SHT_SYMTAB: u32 = 2;

/// sh_type of strings.
pub const SHT_STRTAB: u32 = 3;

/// The fields of a section header that are used.
#[derive(Clone, Copy)]
pub struct SectionHeader {
    /// What the section has: 2 for SHT_SYMTAB, symbols; 3 for SHT_STRTAB, strings.
    pub sh_type: u32,
    /// The offset of its first byte in the file.
    pub sh_offset: u32,
    /// The number of its bytes.
    pub sh_size: u32,
    /// Of symbols, the number of the section that has their names.
    pub sh_link: u32,
    /// The size of an entry.
    pub sh_entsize: u32,
}

/// Whether the file has a table of section headers, all of it in the file.
#[tactic(auto, unfolding(crate::specs::Symbols::has_sections))]
pub(crate) fn has_sections(file: &[u8]) -> bool
    ensures { result ≡ has_sections file.now }
{
    if file.len() < HEADER_SIZE || is_not_elf32_big(file) {
        return false;
    }
    let size = u64::from(SECTION_HEADER_SIZE) * u64::from(file_half(file, E_SHNUM));
    let end = u64::from(file_word(file, E_SHOFF)) + size;
    file_half(file, E_SHENTSIZE) == SECTION_HEADER_SIZE && end <= file.len() as u64
}

/// The number of section headers.
#[tactic(auto, unfolding(crate::specs::Symbols::has_sections))]
fn e_shnum(file: &[u8]) -> u16
    requires { has_sections file.now ≡ true }
    ensures { result ≡ e_shnum file.now }
{
    file_half(file, E_SHNUM)
}

/// The section header at an offset in the file.
fn section_at(file: &[u8], at: usize) -> SectionHeader
    requires { at + 40 ≤ length file.now }
    ensures { result ≡ section_at file.now at }
{
    SectionHeader {
        sh_type: file_word(file, at + 4),
        sh_offset: file_word(file, at + 16),
        sh_size: file_word(file, at + 20),
        sh_link: file_word(file, at + 24),
        sh_entsize: file_word(file, at + 36),
    }
}

/// Section header `i`.
#[tactic(auto, unfolding(crate::specs::Symbols::has_sections))]
fn nth_section(file: &[u8], i: u16) -> SectionHeader
    requires table { has_sections file.now ≡ true }
    requires within { i < e_shnum file.now }
    ensures { result ≡ section file.now i }
{
    let at = file_word(file, E_SHOFF) as usize + usize::from(SECTION_HEADER_SIZE) * usize::from(i);
    section_at(file, at)
}

/// The first section header of a symbol table.
pub(crate) fn first_symbols(file: &[u8]) -> Option<SectionHeader>
    requires { has_sections file.now ≡ true }
    ensures { result ≡ find is_symbol_table (sections file.now) }
{
    for i in 0..e_shnum(file) {
        let header = nth_section(file, i);
        if header.sh_type == SHT_SYMTAB {
            return Some(header);
        }
    }
    None
}

/// The section header of a number, if there is one.
pub(crate) fn linked_section(file: &[u8], number: u32) -> Option<SectionHeader>
    requires { has_sections file.now ≡ true }
    ensures { result ≡ slice_get (sections file.now) number }
{
    if number < u32::from(e_shnum(file)) {
        Some(nth_section(file, number as u16))
    } else {
        None
    }
}
