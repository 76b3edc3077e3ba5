//! The symbol table of a program's labels.

ghost use Rattle.std.specs.Prelude.{◌≡◌, ◌+◌, ◌*◌, ◌%◌, ◌<◌, ◌≤◌, ◌^◌, ◌++◌, ◌∷◌, [], ℕ, List, length, replicate, IfOk, OnOk};
ghost use Rattle.m161_asm.specs.Segments.{segments_seen};
ghost use Rattle.m161_asm.specs.Seen.{symbols_seen};
ghost use Rattle.m161_elf_writer.specs.Labels.{file_with_symbols, header_with_sections, label_names, padding, section_header, section_headers, shstrtab, strtab, symbol_entries, symbol_entry, symtab};
ghost use Rattle.m161_elf_writer.specs.Written.{elf_bytes, file_header};

use crate::writer::{push_halves, push_words, write};
use m161_asm::{Program, SymbolTable};
use m161_elf::{SECTION_HEADER_SIZE, SHN_ABS, SHT_STRTAB, SHT_SYMTAB, SYMBOL_SIZE};
use std::alloc::{AllocError, Global};

/// The names of the sections: the empty one, and from 1, 9 and 17 on those of the three sections.
const SECTION_NAMES: &str = "\0.symtab\0.strtab\0.shstrtab\0";

/// st_info of a global symbol without a type.
const GLOBAL_NOTYPE: u8 = 16;

/// e_shnum.
const SECTIONS: u16 = 4;

/// e_shstrndx.
const NAMES_SECTION: u16 = 3;

/// The file of a program as `write` makes it, with e_shoff, e_shentsize, e_shnum and e_shstrndx set
/// in its header, and behind it the sections .symtab, .strtab and .shstrtab and the table of the
/// section headers, at a multiple of 4. Each label is a global symbol without a type, with the
/// label's address as an absolute value, in the order of the text.
///
/// # Errors
/// Memory was refused.
pub fn write_with_symbols(alloc: Global, program: &Program) -> Result<Vec<u8>, AllocError>
    ensures { IfOk result (λ bytes. bytes.items ≡ file_with_symbols program.now.entry
        (segments_seen program.now.segments.items) (symbols_seen program.now.symbols)) }
{
    let mut file = write(alloc, program)?;
    let symbols = file.len();
    push_symbols(&mut file, &program.symbols)?;
    let names = file.len();
    push_names(&mut file, &program.symbols)?;
    let sections = file.len();
    file.extend_from_slice(SECTION_NAMES.as_bytes())?;
    push_padding(&mut file)?;
    let headers = file.len();
    push_section_headers(&mut file, symbols, names, sections)?;
    set_sections(&mut file, headers);
    Ok(file)
}

// The bytes that a field of 32 bits holds of a number.
fn word(number: usize) -> u32
    ensures { result ≡ number % 2 ^ 32 }
{
    (number % (1 << 32)) as u32
}

// The symbol of a label whose name is at a place in the strings.
fn push_symbol(file: &mut Vec<u8>, place: u32, value: u32) -> Result<(), AllocError>
    ensures { OnOk result (file.new.items ≡ file.old.items ++ symbol_entry place value) }
{
    push_words(file, &[place, value, 0])?;
    file.extend_from_slice(&[GLOBAL_NOTYPE, 0])?;
    push_halves(file, &[SHN_ABS])
}

// The null symbol, and the symbols of all labels.
fn push_symbols(file: &mut Vec<u8>, symbols: &SymbolTable) -> Result<(), AllocError>
    ensures { OnOk result (file.new.items ≡ file.old.items ++ symtab (symbols_seen symbols.now)) }
{
    file.extend_from_slice(&[0; SYMBOL_SIZE])?;
    // So that the proof knows that the number of each label fits.
    let _count = symbols.len();
    let mut place = 1;
    let mut i = 0;
    while let Some((name, value)) = symbols.get_index(i) {
        push_symbol(file, place, *value)?;
        place = word(place as usize + name.len() + 1);
        i += 1;
    }
    Ok(())
}

// The empty name, and the names of all labels.
fn push_names(file: &mut Vec<u8>, symbols: &SymbolTable) -> Result<(), AllocError>
    ensures { OnOk result (file.new.items ≡ file.old.items ++ strtab (symbols_seen symbols.now)) }
{
    // So that the proof knows that the number of each label fits.
    let _count = symbols.len();
    file.push(0)?;
    let mut i = 0;
    while let Some((name, _)) = symbols.get_index(i) {
        file.extend_from_slice(name.as_bytes())?;
        file.push(0)?;
        i += 1;
    }
    Ok(())
}

// Zeros up to the next multiple of 4.
fn push_padding(file: &mut Vec<u8>) -> Result<(), AllocError>
    ensures { OnOk result (file.new.items ≡ file.old.items ++ padding (length file.old.items)) }
{
    let zeros = (4 - file.len() % 4) % 4;
    file.extend_from_slice(&[0; 4][..zeros])
}

// The section headers of the symbols, of their names and of the sections' names, which begin at
// these offsets.
fn push_section_headers(
    file: &mut Vec<u8>,
    symbols: usize,
    names: usize,
    sections: usize,
) -> Result<(), AllocError>
    requires symbols { symbols ≤ names }
    requires names { names ≤ sections }
    ensures { OnOk result (file.new.items
        ≡ file.old.items ++ section_headers symbols names sections) }
{
    file.extend_from_slice(&[0; SECTION_HEADER_SIZE as usize])?;
    let (at, size) = (word(symbols), word(names - symbols));
    push_words(file, &[1, SHT_SYMTAB, 0, 0, at, size, 2, 1, 4, 16])?;
    let (at, size) = (word(names), word(sections - names));
    push_words(file, &[9, SHT_STRTAB, 0, 0, at, size, 0, 0, 1, 0])?;
    let (at, size) = (word(sections), SECTION_NAMES.len() as u32);
    push_words(file, &[17, SHT_STRTAB, 0, 0, at, size, 0, 0, 1, 0])?;
    Ok(())
}

// Sets e_shoff, e_shentsize, e_shnum and e_shstrndx in the ELF header.
fn set_fields(file: &mut [u8], headers: usize)
    requires { 52 ≤ length file.old }
    ensures { (entry count : ℕ) (rest : List ℕ) → file.old ≡ file_header entry count ++ rest
        → file.new ≡ header_with_sections entry count headers ++ rest }
{
    file[32..36].copy_from_slice(&word(headers).to_be_bytes());
    file[46..48].copy_from_slice(&SECTION_HEADER_SIZE.to_be_bytes());
    file[48..50].copy_from_slice(&SECTIONS.to_be_bytes());
    file[50..52].copy_from_slice(&NAMES_SECTION.to_be_bytes());
}

// Sets them in a file with the section headers at an offset.
fn set_sections(file: &mut Vec<u8>, headers: usize)
    requires { 52 ≤ length file.old.items }
    ensures { (entry count : ℕ) (rest : List ℕ) → file.old.items ≡ file_header entry count ++ rest
        → file.new.items ≡ header_with_sections entry count headers ++ rest }
{
    set_fields(file, headers);
}
