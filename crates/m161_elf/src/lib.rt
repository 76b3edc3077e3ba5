//! ELF32 files for MIPS: their image in memory, and their symbols.
//!
//! ```text
//! header           52 bytes: identification 0, e_type 16, e_machine 18, e_entry 24, e_phoff 28,
//!                  e_shoff 32, e_phentsize 42, e_phnum 44, e_shentsize 46, e_shnum 48
//! program header   32 bytes: p_type 0, p_offset 4, p_vaddr 8, p_paddr 12, p_filesz 16, p_memsz 20,
//!                  p_flags 24, p_align 28
//! section header   40 bytes: sh_type 4, sh_offset 16, sh_size 20, sh_link 24, sh_entsize 36
//! symbol           16 bytes: st_name 0, st_value 4, st_info 12 (one byte), st_shndx 14
//! numbers          big-endian: an address, offset, size, type, link or name has 4 bytes, the
//!                  others 2
//! ```
//!
//! A file has any number of program headers, in a table at e_phoff. Those of type PT_LOAD are the
//! segments to load, in the table's order: each address gets the byte of the last segment that has
//! one there (zero past p_filesz), or else 0. A segment's addresses are those of RAM by kseg0 (from
//! 80000000) or kseg1 (from a0000000): the physical address is the address minus the base. Other
//! headers, sections, p_flags, p_paddr and the bytes of the ABI are ignored there.
//!
//! A file may have names for its addresses: the symbols of the first section of type SHT_SYMTAB,
//! whose names are in the section of type SHT_STRTAB that sh_link numbers. A damaged table is no
//! fault of the file: it has no symbols then.
//!
//! Source: the ELF32 specification and its MIPS supplement; the order of the faults, that the last
//! segment is used, which segment outside RAM is told, and which symbols are listed are this project's own.
#![tactic(auto)]

mod address;
mod cover;
mod fault;
mod header;
mod image;
mod loader;
mod outside;
mod sections;
mod segments;
mod span;
mod symbol_table;

pub use address::is_in_ram;
pub use fault::{EXECUTABLE, IDENTIFICATION, MIPS};
pub use header::{HEADER_SIZE, PROGRAM_HEADER_SIZE, PT_LOAD, ProgramHeader};
pub use image::{Image, LoadError};
pub use loader::{load, loads};
pub use outside::{OutsideRam, first_outside_ram};
pub use sections::{SECTION_HEADER_SIZE, SHT_STRTAB, SHT_SYMTAB};
pub use span::Span;
pub use symbol_table::{LONGEST_NAME, SHN_ABS, SYMBOL_SIZE, Symbol, symbols};
