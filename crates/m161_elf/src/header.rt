//! The fields of ELF32's headers.

ghost use Rattle.std.specs.Prelude.{◌≡◌, ◌+◌, ◌*◌, ◌<◌, ◌≤◌, false, length};
ghost use Rattle.m161_ram.specs.Word.{half_at, word_at};
ghost use Rattle.m161_elf.specs.Header.{e_phnum, e_phoff, header, header_at};
ghost use Rattle.m161_elf.specs.helpers.Header.{segment_at};
ghost use Rattle.m161_elf.specs.Image.{has_bad_header_table};

/// The size of the ELF header.
pub const HEADER_SIZE: usize = 52;

/// The offset of e_type.
pub(crate) const E_TYPE: usize = 16;

/// The offset of e_machine.
pub(crate) const E_MACHINE: usize = 18;

/// The offset of e_entry.
pub(crate) const E_ENTRY: usize = 24;

/// The offset of e_phoff.
pub(crate) const E_PHOFF: usize = 28;

/// The offset of e_phentsize.
pub(crate) const E_PHENTSIZE: usize = 42;

/// The offset of e_phnum.
pub(crate) const E_PHNUM: usize = 44;

/// The size of a program header.
pub const PROGRAM_HEADER_SIZE: u16 = 32;

/// p_type of a segment to load.
pub const PT_LOAD: u32 = 1;

/// The fields of a program header that are used.
#[derive(Clone, Copy)]
pub struct ProgramHeader {
    /// 1 for PT_LOAD, a segment to load.
    pub p_type: u32,
    /// The offset of its first byte in the file.
    pub p_offset: u32,
    /// The address of its first byte in memory.
    pub p_vaddr: u32,
    /// The number of its bytes in the file.
    pub p_filesz: u32,
    /// The number of its bytes in memory; those past `p_filesz` are zero.
    pub p_memsz: u32,
}

/// The half-word at an offset in the file. Read here, since `Ram`'s functions are those of a memory.
pub(crate) fn file_half(file: &[u8], at: usize) -> u16
    requires { at + 2 ≤ length file.now }
    ensures { result ≡ half_at file.now at }
{
    u16::from_be_bytes([file[at], file[at + 1]])
}

/// The word at an offset in the file.
pub(crate) fn file_word(file: &[u8], at: usize) -> u32
    requires { at + 4 ≤ length file.now }
    ensures { result ≡ word_at file.now at }
{
    u32::from_be_bytes([file[at], file[at + 1], file[at + 2], file[at + 3]])
}

/// The program header at an offset in the file.
fn header_at(file: &[u8], at: usize) -> ProgramHeader
    requires { at + 32 ≤ length file.now }
    ensures { result ≡ header_at file.now at }
{
    ProgramHeader {
        p_type: file_word(file, at),
        p_offset: file_word(file, at + 4),
        p_vaddr: file_word(file, at + 8),
        p_filesz: file_word(file, at + 16),
        p_memsz: file_word(file, at + 20),
    }
}

/// The number of program headers.
pub(crate) fn e_phnum(file: &[u8]) -> u16
    requires { 52 ≤ length file.now }
    ensures { result ≡ e_phnum file.now }
{
    file_half(file, E_PHNUM)
}

/// Program header `i`.
pub(crate) fn header(file: &[u8], i: u16) -> ProgramHeader
    requires header { 52 ≤ length file.now }
    requires table { has_bad_header_table file.now ≡ false }
    requires within { i < e_phnum file.now }
    ensures { result ≡ header file.now i }
{
    let at = file_word(file, E_PHOFF) as usize + usize::from(PROGRAM_HEADER_SIZE) * usize::from(i);
    header_at(file, at)
}

/// Program header `i`, if it is of a segment to load.
pub(crate) fn segment(file: &[u8], i: u16) -> Option<ProgramHeader>
    requires header { 52 ≤ length file.now }
    requires table { has_bad_header_table file.now ≡ false }
    requires within { i < e_phnum file.now }
    ensures { result ≡ segment_at file.now i }
{
    let header = header(file, i);
    if header.p_type == PT_LOAD {
        Some(header)
    } else {
        None
    }
}
