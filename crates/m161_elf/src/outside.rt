//! The first segment that isn't in RAM, and where the file says so: for those who tell why a file isn't
//! loaded. Segments are counted as the file's program headers are: from 0, over all of them, whatever their
//! type.

ghost use Rattle.std.specs.Prelude.{◌≡◌, ◌≤◌, false, length, position, option_map, IsSome, Some};
ghost use Rattle.m161_elf.specs.declared.image.LoadError.TheVariants as fault;
ghost use Rattle.m161_elf.specs.Header.{e_phnum, headers};
ghost use Rattle.m161_elf.specs.Image.{first_fault, has_bad_header_table};
ghost use Rattle.m161_elf.specs.Outside.{first_outside_ram, has_headers, is_at_fault, outside_at};

use crate::fault::has_bad_header_table;
use crate::header::{HEADER_SIZE, PT_LOAD, ProgramHeader, e_phnum, header};
use crate::segments::is_outside_ram;

/// A segment whose memory isn't all in RAM, neither by kseg0 nor by kseg1.
#[derive(Clone, Copy, Debug, PartialEq, Eq)]
pub struct OutsideRam {
    /// The number of its program header: its place in the file's table, from 0, among all program
    /// headers, those of other types too.
    pub header: u16,
    /// The number of its bytes in memory, p_memsz.
    pub size: u32,
    /// The address of the first of them, p_vaddr.
    pub address: u32,
    /// The bytes of RAM.
    pub ram: u32,
}

/// The first segment to load, in the order of the program headers, whose memory isn't all in `ram`
/// bytes of RAM, by kseg0 or by kseg1. `None` where there is none, and for a file without a whole table
/// of program headers. A file that isn't loaded for `SegmentOutsideRam` has one.
///
/// Source: which segment is told is this project's own; the headers are those of ELF32.
pub fn first_outside_ram(file: &[u8], ram: u32) -> Option<OutsideRam>
    ensures value { result ≡ first_outside_ram file.now ram }
    ensures found { first_fault file.now ram ≡ Some fault.SegmentOutsideRam → IsSome result }
{
    if !has_headers(file) {
        return None;
    }
    first_among(file, ram)
}

/// The same of a file that has its program headers.
fn first_among(file: &[u8], ram: u32) -> Option<OutsideRam>
    requires header { 52 ≤ length file.now }
    requires table { has_bad_header_table file.now ≡ false }
    ensures { result ≡ option_map (outside_at file.now ram)
        (position (is_at_fault ram) (headers file.now (e_phnum file.now))) }
{
    for i in 0..e_phnum(file) {
        let header = header(file, i);
        if is_at_fault(ram, &header) {
            return Some(OutsideRam {
                header: i,
                size: header.p_memsz,
                address: header.p_vaddr,
                ram,
            });
        }
    }
    None
}

fn is_at_fault(ram: u32, header: &ProgramHeader) -> bool
    ensures { result ≡ is_at_fault ram header.now }
{
    header.p_type == PT_LOAD && is_outside_ram(ram, header)
}

/// Whether the file has its header and its table of program headers.
fn has_headers(file: &[u8]) -> bool
    ensures { result ≡ has_headers file.now }
{
    if file.len() < HEADER_SIZE {
        return false;
    }
    !has_bad_header_table(file)
}
