//! Segments put into memory from the last to the first, each byte once.
//!
//! The table `next` says where the next place is that isn't taken: all places from i up to `next[i]`
//! are taken, and i itself is free where `next[i]` is i. It has an entry more than memory has bytes;
//! the last one is always free. It is a disjoint-set forest, whose paths are halved as they are
//! walked (Tarjan and van Leeuwen), so that all segments together cost little more than one pass
//! over memory, however they lie over each other.

ghost use Rattle.std.specs.Prelude.{◌≡◌, ◌+◌, ◌<◌, ◌≤◌, ◌^◌, ◌||◌, ℕ, false, true, length, replicate, slice_index, if◌then◌else◌, EachIndex, IfOk, OnOk};
ghost use Rattle.m161_elf.specs.Header.{e_phnum, segments};
ghost use Rattle.m161_elf.specs.Image.{byte_left, covers, is_outside_file, segment_byte};
ghost use Rattle.m161_elf.specs.helpers.Copied.{put_byte};
ghost use Rattle.m161_elf.specs.helpers.Cover.{is_taken, IsCover};
ghost use Rattle.m161_elf.specs.helpers.Sound.{IsSoundFile, IsSoundSegment};

use crate::address::place_in_ram;
use crate::header::{ProgramHeader, e_phnum, segment};
use std::alloc::{AllocError, Global};

/// Copies all segments to memory of zeros, the last one first, each where no later one has a byte.
pub(crate) fn put_segments_once(
    alloc: Global,
    memory: &mut [u8],
    file: &[u8],
) -> Result<(), AllocError>
    requires sound { IsSoundFile file.now (length memory.old) }
    requires zeros { memory.old ≡ replicate (length memory.old) 0 }
    requires small { length memory.old < 2 ^ 32 }
    ensures { OnOk result (EachIndex memory.old (λ at. slice_index memory.new at
        ≡ byte_left file.now (segments file.now) at)) }
{
    let mut next = free_places(alloc, memory.len() + 1)?;
    put_last_first(memory, &mut next, file);
    Ok(())
}

/// The table of a memory in which nothing is taken.
fn free_places(alloc: Global, size: usize) -> Result<Vec<u32>, AllocError>
    requires { size ≤ 2 ^ 32 }
    ensures size { IfOk result (λ next. length next.items ≡ size) }
    ensures free { IfOk result (λ next. (at : ℕ) → at < size → slice_index next.items at ≡ at) }
{
    let mut next = vec![in alloc; 0u32; size]?;
    for at in 0..size {
        next[at] = at as u32;
    }
    Ok(next)
}

/// Copies all segments, the last one first, where `next` has every place free.
fn put_last_first(memory: &mut [u8], next: &mut [u32], file: &[u8])
    requires sound { IsSoundFile file.now (length memory.old) }
    requires zeros { memory.old ≡ replicate (length memory.old) 0 }
    requires small { length memory.old < 2 ^ 32 }
    requires size { length next.old ≡ length memory.old + 1 }
    requires free { EachIndex next.old (λ at. slice_index next.old at ≡ at) }
    ensures { EachIndex memory.old (λ at. slice_index memory.new at
        ≡ byte_left file.now (segments file.now) at) }
{
    let mut i = e_phnum(file);
    while i > 0 {
        i -= 1;
        if let Some(segment) = segment(file, i) {
            put_where_free(memory, next, file, &segment);
        }
    }
}

/// Copies a segment to the places that are free, and takes them.
fn put_where_free(memory: &mut [u8], next: &mut [u32], file: &[u8], segment: &ProgramHeader)
    requires sound { IsSoundSegment file.now (length memory.old) segment.now }
    requires small { length memory.old < 2 ^ 32 }
    requires size { length next.old ≡ length memory.old + 1 }
    requires cover { IsCover next.old }
    ensures cover { IsCover next.new }
    ensures taken { EachIndex memory.old (λ at. is_taken next.new at
        ≡ (is_taken next.old at || covers at segment.now)) }
    ensures bytes { EachIndex memory.old (λ at. slice_index memory.new at
        ≡ (if is_taken next.old at then slice_index memory.old at
        else put_byte file.now segment.now memory.old at)) }
{
    if segment.p_memsz == 0 {
        return;
    }
    let start = place_in_ram(segment.p_vaddr) as usize;
    let end = start + segment.p_memsz as usize;
    let mut at = free_from(next, start);
    while at < end {
        memory[at] = segment_byte(file, segment, at);
        next[at] = at as u32 + 1;
        at = free_from(next, at + 1);
    }
}

/// The byte of a segment at a place in memory: the file's, or zero past the file's part.
fn segment_byte(file: &[u8], segment: &ProgramHeader, at: usize) -> u8
    requires in_file { is_outside_file file.now segment.now ≡ false }
    requires covered { covers at segment.now ≡ true }
    ensures { result ≡ segment_byte file.now at segment.now }
{
    let into = at - place_in_ram(segment.p_vaddr) as usize;
    if into < segment.p_filesz as usize {
        file[segment.p_offset as usize + into]
    } else {
        0
    }
}

/// The first free place from a place on. Halves the path to it.
fn free_from(next: &mut [u32], from: usize) -> usize
    requires cover { IsCover next.old }
    requires within { from < length next.old }
    ensures cover { IsCover next.new }
    ensures same { EachIndex next.old (λ at. is_taken next.new at ≡ is_taken next.old at) }
    ensures skipped { (at : ℕ) → from ≤ at → at < result → is_taken next.old at ≡ true }
    ensures free { slice_index next.new result ≡ result }
    ensures from { from ≤ result }
    ensures bound { result < length next.old }
{
    let mut at = from;
    while next[at] as usize != at {
        let further = next[next[at] as usize];
        next[at] = further;
        at = further as usize;
    }
    at
}
