//! Why a file is refused.

ghost use Rattle.std.specs.Prelude.{◌≡◌, ◌≢◌, ◌≤◌, false, length, IfNone, IfSome};
ghost use Rattle.m161_elf.specs.Image.{first_fault, has_bad_entry, has_bad_header_table, is_not_elf32_big, is_not_executable, is_not_mips};

use crate::address::is_in_ram;
use crate::header::{
    E_ENTRY, E_MACHINE, E_PHENTSIZE, E_PHOFF, E_TYPE, HEADER_SIZE, PROGRAM_HEADER_SIZE, e_phnum,
    file_half, file_word,
};
use crate::image::LoadError;
use crate::segments::segment_faults;

/// How a big-endian ELF32 file of version 1 begins.
pub const IDENTIFICATION: [u8; 7] = [0x7f, b'E', b'L', b'F', 1, 2, 1];

/// e_type of an executable.
pub const EXECUTABLE: u16 = 2;

/// e_machine of MIPS.
pub const MIPS: u16 = 8;

/// The first fault that holds.
#[tactic(auto, unfolding(crate::specs::Image::first_fault))]
pub(crate) fn fault(file: &[u8], ram: u32) -> Option<LoadError>
    ensures first { result ≡ first_fault file.now ram }
    ensures kind { IfSome result (λ e. e ≢ LoadError.NoMemory) }
    ensures header { IfNone result (52 ≤ length file.now) }
    ensures table { IfNone result (has_bad_header_table file.now ≡ false) }
    ensures entry { IfNone result (has_bad_entry file.now ram ≡ false) }
{
    if file.len() < HEADER_SIZE {
        return Some(LoadError::Truncated);
    }
    if is_not_elf32_big(file) {
        return Some(LoadError::NotElf32Big);
    }
    if is_not_executable(file) {
        return Some(LoadError::NotExecutable);
    }
    if is_not_mips(file) {
        return Some(LoadError::NotMips);
    }
    if has_bad_header_table(file) {
        return Some(LoadError::BadHeaderTable);
    }
    let faults = segment_faults(file, ram);
    if faults.outside_file {
        Some(LoadError::SegmentOutsideFile)
    } else if faults.outside_ram {
        Some(LoadError::SegmentOutsideRam)
    } else if faults.larger_in_file {
        Some(LoadError::FileLargerThanMemory)
    } else if has_bad_entry(file, ram) {
        Some(LoadError::BadEntry)
    } else {
        None
    }
}

pub(crate) fn is_not_elf32_big(file: &[u8]) -> bool
    ensures { result ≡ is_not_elf32_big file.now }
{
    !file.starts_with(&IDENTIFICATION)
}

fn is_not_executable(file: &[u8]) -> bool
    requires { 52 ≤ length file.now }
    ensures { result ≡ is_not_executable file.now }
{
    file_half(file, E_TYPE) != EXECUTABLE
}

fn is_not_mips(file: &[u8]) -> bool
    requires { 52 ≤ length file.now }
    ensures { result ≡ is_not_mips file.now }
{
    file_half(file, E_MACHINE) != MIPS
}

pub(crate) fn has_bad_header_table(file: &[u8]) -> bool
    requires { 52 ≤ length file.now }
    ensures { result ≡ has_bad_header_table file.now }
{
    let count = e_phnum(file);
    let size = u64::from(PROGRAM_HEADER_SIZE) * u64::from(count);
    let end = u64::from(file_word(file, E_PHOFF)) + size;
    count != 0 && (file_half(file, E_PHENTSIZE) != PROGRAM_HEADER_SIZE || (file.len() as u64) < end)
}

fn has_bad_entry(file: &[u8], ram: u32) -> bool
    requires { 52 ≤ length file.now }
    ensures { result ≡ has_bad_entry file.now ram }
{
    let entry = file_word(file, E_ENTRY);
    entry % 4 != 0 || !is_in_ram(ram, entry, 1)
}
