//! The faults of segments.

ghost use Rattle.std.specs.Prelude.{◌≡◌, ◌≤◌, false, length};
ghost use Rattle.m161_elf.specs.Header.{e_phnum};
ghost use Rattle.m161_elf.specs.Image.{has_bad_header_table, is_larger_in_file, is_outside_file, is_outside_ram};
ghost use Rattle.m161_elf.specs.helpers.Sound.{faults_among};

use crate::address::is_in_ram;
use crate::header::{ProgramHeader, e_phnum, segment};

/// For each fault of a segment, whether some segment of the file has it.
#[derive(Clone, Copy)]
pub struct SegmentFaults {
    /// The bytes in the file end past the file's end.
    pub outside_file: bool,
    /// The memory isn't all in RAM by kseg0, or all in RAM by kseg1.
    pub outside_ram: bool,
    /// There are more bytes in the file than in memory.
    pub larger_in_file: bool,
}

/// The faults of all segments to load, in one pass over the program headers.
pub(crate) fn segment_faults(file: &[u8], ram: u32) -> SegmentFaults
    requires header { 52 ≤ length file.now }
    requires table { has_bad_header_table file.now ≡ false }
    ensures { result ≡ faults_among file.now ram (e_phnum file.now) }
{
    let mut faults = SegmentFaults {
        outside_file: false,
        outside_ram: false,
        larger_in_file: false,
    };
    for i in 0..e_phnum(file) {
        if let Some(segment) = segment(file, i) {
            faults.outside_file |= is_outside_file(file, &segment);
            faults.outside_ram |= is_outside_ram(ram, &segment);
            faults.larger_in_file |= is_larger_in_file(&segment);
        }
    }
    faults
}

fn is_outside_file(file: &[u8], segment: &ProgramHeader) -> bool
    ensures { result ≡ is_outside_file file.now segment.now }
{
    let end = u64::from(segment.p_offset) + u64::from(segment.p_filesz);
    segment.p_filesz != 0 && (file.len() as u64) < end
}

pub(crate) fn is_outside_ram(ram: u32, segment: &ProgramHeader) -> bool
    ensures { result ≡ is_outside_ram ram segment.now }
{
    segment.p_memsz != 0 && !is_in_ram(ram, segment.p_vaddr, segment.p_memsz)
}

fn is_larger_in_file(segment: &ProgramHeader) -> bool
    ensures { result ≡ is_larger_in_file segment.now }
{
    segment.p_memsz < segment.p_filesz
}
