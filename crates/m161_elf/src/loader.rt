//! File bytes to memory.

ghost use Rattle.std.specs.Prelude.{◌≡◌, ◌%◌, ◌<◌, ◌≤◌, ◌^◌, Err, None, false, true, length, replicate, slice_index, EachIndex, IfOk, OnOk};
ghost use Rattle.m161_elf.specs.helpers.Copied.{cleared_byte, copied_byte, put_byte};
ghost use Rattle.m161_elf.specs.Header.{e_phnum, segments};
ghost use Rattle.m161_elf.specs.Image.{byte_left, first_fault, has_bad_header_table, is_in_ram, is_larger_in_file, is_outside_ram, Loads};
ghost use Rattle.m161_elf.specs.helpers.Sound.{IsSoundFile, IsSoundSegment};
ghost use Rattle.m161_elf.specs.Span.{Lists};
ghost use Rattle.m161_elf.specs.helpers.Span.{span_at};

use crate::address::place_in_ram;
use crate::cover::put_segments_once;
use crate::fault::fault;
use crate::header::{E_ENTRY, ProgramHeader, e_phnum, file_word, segment};
use crate::image::{Image, LoadError};
use crate::span::Span;
use std::alloc::{AllocError, Global};

/// The image of a file in `ram` bytes of RAM, or the first fault that holds.
pub fn load(alloc: Global, file: &[u8], ram: u32) -> Result<Image, LoadError>
    ensures answer { Loads file.now ram (first_fault file.now ram) result }
    ensures entry { IfOk result (λ image. (image.entry % 4
        ≡ 0) × (is_in_ram ram image.entry 1 ≡ true)) }
    ensures memory { result ≡ Err LoadError.NoMemory → first_fault file.now ram ≡ None }
{
    if let Some(fault) = fault(file, ram) {
        return Err(fault);
    }
    let mut bytes = vec![in alloc; 0u8; ram as usize].map_err(|_| LoadError::NoMemory)?;
    let Ok(()) = put_all(alloc, &mut bytes, file) else {
        return Err(LoadError::NoMemory);
    };
    Ok(Image {
        entry: file_word(file, E_ENTRY),
        bytes,
    })
}

/// The most program headers whose segments are put one over the other, which takes no memory, but
/// as many passes over RAM as there are headers.
const FEW_HEADERS: u16 = 16;

/// Copies all segments to memory of zeros.
fn put_all(alloc: Global, memory: &mut [u8], file: &[u8]) -> Result<(), AllocError>
    requires sound { IsSoundFile file.now (length memory.old) }
    requires zeros { memory.old ≡ replicate (length memory.old) 0 }
    requires small { length memory.old < 2 ^ 32 }
    ensures { OnOk result (EachIndex memory.old (λ at. slice_index memory.new at
        ≡ byte_left file.now (segments file.now) at)) }
{
    if e_phnum(file) <= FEW_HEADERS {
        put_segments(memory, file);
        Ok(())
    } else {
        put_segments_once(alloc, memory, file)
    }
}

/// Copies all segments to memory of zeros, in the table's order.
fn put_segments(memory: &mut [u8], file: &[u8])
    requires sound { IsSoundFile file.now (length memory.old) }
    requires zeros { memory.old ≡ replicate (length memory.old) 0 }
    ensures { EachIndex memory.old (λ at. slice_index memory.new at
        ≡ byte_left file.now (segments file.now) at) }
{
    for i in 0..e_phnum(file) {
        if let Some(segment) = segment(file, i) {
            put_segment(memory, file, &segment);
        }
    }
}

/// Copies a segment to memory: the file's bytes, then zeros.
fn put_segment(memory: &mut [u8], file: &[u8], segment: &ProgramHeader)
    requires { IsSoundSegment file.now (length memory.old) segment.now }
    ensures { EachIndex memory.old (λ at. slice_index memory.new at
        ≡ put_byte file.now segment.now memory.old at) }
{
    copy_bytes(memory, file, segment);
    clear_rest(memory, segment);
}

/// Copies the file's bytes of a segment to their place in memory.
fn copy_bytes(memory: &mut [u8], file: &[u8], segment: &ProgramHeader)
    requires { IsSoundSegment file.now (length memory.old) segment.now }
    ensures { EachIndex memory.old (λ at. slice_index memory.new at
        ≡ copied_byte file.now segment.now memory.old at) }
{
    if segment.p_filesz == 0 {
        return;
    }
    let start = place_in_ram(segment.p_vaddr) as usize;
    let offset = segment.p_offset as usize;
    let size = segment.p_filesz as usize;
    memory[start..start + size].copy_from_slice(&file[offset..offset + size]);
}

/// Clears the memory of a segment past the file's bytes.
fn clear_rest(memory: &mut [u8], segment: &ProgramHeader)
    requires in_ram { is_outside_ram (length memory.old) segment.now ≡ false }
    requires in_memory { is_larger_in_file segment.now ≡ false }
    ensures { EachIndex memory.old (λ at. slice_index memory.new at
        ≡ cleared_byte segment.now memory.old at) }
{
    if segment.p_memsz == 0 {
        return;
    }
    let start = place_in_ram(segment.p_vaddr) as usize;
    let rest = start + segment.p_filesz as usize;
    let end = start + segment.p_memsz as usize;
    memory[rest..end].fill(0);
}

/// The addresses at which a file has bytes: one span for each segment that has some in the file, in
/// the order of the program headers. The errors are those of `load`.
pub fn loads(alloc: Global, file: &[u8], ram: u32) -> Result<Vec<Span>, LoadError>
    ensures answer { Lists file.now (first_fault file.now ram) result }
    ensures memory { result ≡ Err LoadError.NoMemory → first_fault file.now ram ≡ None }
{
    if let Some(fault) = fault(file, ram) {
        return Err(fault);
    }
    let mut spans = Vec::new(alloc);
    for i in 0..e_phnum(file) {
        if let Some(span) = span(file, i) {
            spans.push(span).map_err(|_| LoadError::NoMemory)?;
        }
    }
    Ok(spans)
}

/// The span of program header `i`, if it is of a segment to load that has bytes in the file.
fn span(file: &[u8], i: u16) -> Option<Span>
    requires header { 52 ≤ length file.now }
    requires table { has_bad_header_table file.now ≡ false }
    requires within { i < e_phnum file.now }
    ensures { result ≡ span_at file.now i }
{
    let segment = segment(file, i)?;
    if segment.p_filesz == 0 {
        return None;
    }
    Some(Span {
        address: segment.p_vaddr,
        size: segment.p_filesz,
    })
}
