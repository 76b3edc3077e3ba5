//! A program to file bytes.

ghost use Rattle.std.specs.Prelude.{◌≡◌, ◌+◌, ◌*◌, ◌<◌, ◌≤◌, ◌^◌, ◌++◌, length, IfOk, OnOk};
ghost use Rattle.m161_asm.specs.Segments.{segment_seen, segments_seen, word_count};
ghost use Rattle.m161_elf_writer.specs.Written.{elf_bytes, file_header, halves_bytes, segment_bytes, segment_header, segment_headers, size, words_bytes};

use m161_asm::{Program, Segment};
use m161_elf::{EXECUTABLE, HEADER_SIZE, IDENTIFICATION, MIPS, PROGRAM_HEADER_SIZE, PT_LOAD};
use std::alloc::{AllocError, Global};

/// e_version.
const VERSION: u32 = 1;

/// p_flags of a segment to read, write and execute.
const READ_WRITE_EXECUTE: u32 = 7;

/// p_align of words.
const ALIGN: u32 = 4;

/// The file of a program: the ELF header, one program header for each segment, and the segments'
/// words, all in the program's order.
///
/// # Errors
/// Memory was refused.
pub fn write(alloc: Global, program: &Program) -> Result<Vec<u8>, AllocError>
    ensures { IfOk result (λ bytes. bytes.items
        ≡ elf_bytes program.now.entry (segments_seen program.now.segments.items)) }
{
    let mut file = Vec::new(alloc);
    push_file_header(&mut file, program.entry, program.segments.len() as u16)?;
    push_segment_headers(&mut file, &program.segments)?;
    push_segment_bytes(&mut file, &program.segments)?;
    Ok(file)
}

// The ELF header of a file with `count` program headers.
fn push_file_header(file: &mut Vec<u8>, entry: u32, count: u16) -> Result<(), AllocError>
    ensures { OnOk result (file.new.items ≡ file.old.items ++ file_header entry count) }
{
    file.extend_from_slice(&IDENTIFICATION)?;
    file.extend_from_slice(&[0; 9])?;
    push_halves(file, &[EXECUTABLE, MIPS])?;
    push_words(file, &[VERSION, entry, HEADER_SIZE as u32, 0, 0])?;
    let sizes = [HEADER_SIZE as u16, PROGRAM_HEADER_SIZE, count];
    push_halves(file, &sizes)?;
    push_halves(file, &[0, 0, 0])
}

// The program headers of all segments, whose bytes follow the last header.
fn push_segment_headers(file: &mut Vec<u8>, segments: &[Segment]) -> Result<(), AllocError>
    requires words { word_count (segments_seen segments.now) ≤ 4194304 }
    requires count { length segments.now ≤ 1024 }
    ensures { OnOk result (file.new.items ≡ file.old.items
        ++ segment_headers (52 + 32 * length segments.now) (segments_seen segments.now)) }
{
    let table = u32::from(PROGRAM_HEADER_SIZE) * segments.len() as u32;
    let mut offset = HEADER_SIZE as u32 + table;
    for segment in segments {
        offset = push_segment_header(file, segment, offset)?;
    }
    Ok(())
}

// The program header of a segment whose bytes are at an offset. Returns the offset after them.
fn push_segment_header(
    file: &mut Vec<u8>,
    segment: &Segment,
    offset: u32,
) -> Result<u32, AllocError>
    requires { offset + 4 * length segment.now.words.items < 2 ^ 32 }
    ensures header { OnOk result (file.new.items
        ≡ file.old.items ++ segment_header offset (segment_seen segment.now)) }
    ensures next { IfOk result (λ next. next ≡ offset + size (segment_seen segment.now)) }
{
    let size = 4 * segment.words.len() as u32;
    push_words(
        file,
        &[
            PT_LOAD,
            offset,
            segment.address,
            segment.address,
            size,
            size,
            READ_WRITE_EXECUTE,
            ALIGN,
        ],
    )?;
    Ok(offset + size)
}

// The bytes of all segments.
fn push_segment_bytes(file: &mut Vec<u8>, segments: &[Segment]) -> Result<(), AllocError>
    ensures { OnOk result (file.new.items
        ≡ file.old.items ++ segment_bytes (segments_seen segments.now)) }
{
    for segment in segments {
        push_words(file, &segment.words)?;
    }
    Ok(())
}

// The bytes of half-words.
pub(crate) fn push_halves(file: &mut Vec<u8>, halves: &[u16]) -> Result<(), AllocError>
    ensures { OnOk result (file.new.items ≡ file.old.items ++ halves_bytes halves.now) }
{
    for half in halves {
        file.extend_from_slice(&half.to_be_bytes())?;
    }
    Ok(())
}

// The bytes of words.
pub(crate) fn push_words(file: &mut Vec<u8>, words: &[u32]) -> Result<(), AllocError>
    ensures { OnOk result (file.new.items ≡ file.old.items ++ words_bytes words.now) }
{
    for word in words {
        file.extend_from_slice(&word.to_be_bytes())?;
    }
    Ok(())
}
