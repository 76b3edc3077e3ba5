//! Files with more segments than are put one over the other.

use crate::tests::same;
use m161_elf::load;
use std::alloc::{AllocError, AllocGlobal, Global};
use std::process::Abort;
use std::test::Fail;

/// A smallest RAM.
const RAM: u32 = 4096;

/// The file's header without e_phnum, which is `count` here, and the fields behind it.
fn push_header(file: &mut Vec<u8>, count: u16) -> Result<(), AllocError> {
    file.extend_from_slice(&[0x7f, b'E', b'L', b'F', 1, 2, 1, 0, 0, 0, 0, 0, 0, 0, 0, 0])?;
    file.extend_from_slice(&[0, 2, 0, 8, 0, 0, 0, 1, 0x80, 0, 0, 0, 0, 0, 0, 52])?;
    file.extend_from_slice(&[0, 0, 0, 0, 0, 0, 0, 0, 0, 52, 0, 32])?;
    file.extend_from_slice(&count.to_be_bytes())?;
    file.extend_from_slice(&[0, 0, 0, 0, 0, 0])
}

/// A segment at an address, with `in_file` bytes from the file's byte `offset` on.
fn push_segment(
    file: &mut Vec<u8>,
    offset: u32,
    address: u32,
    in_file: u32,
    in_memory: u32,
) -> Result<(), AllocError> {
    for word in [1, offset, address, address, in_file, in_memory, 7, 4] {
        file.extend_from_slice(&word.to_be_bytes())?;
    }
    Ok(())
}

/// The segments of a file: its first byte's place, its place in memory, its bytes in the file and in
/// memory. Each is later than those above it.
static SEGMENTS: [(u32, u32, u32, u32); 20] = [
    (0, 0x8000_0000, 0, 4096),
    (1, 0x8000_0000, 3, 3),
    (1, 0x8000_0010, 3, 8),
    (1, 0xa000_0012, 1, 4),
    (0, 0x8000_0100, 0, 0),
    (1, 0x8000_0fff, 1, 1),
    (1, 0x8000_0020, 3, 3),
    (2, 0x8000_0021, 1, 1),
    (1, 0x8000_0030, 2, 4),
    (0, 0x8000_0031, 0, 1),
    (1, 0x8000_0040, 3, 3),
    (0, 0x8000_0040, 0, 2),
    (1, 0x8000_0050, 1, 1),
    (2, 0x8000_0050, 1, 1),
    (3, 0x8000_0050, 1, 1),
    (1, 0x8000_0060, 3, 16),
    (1, 0x8000_0064, 3, 3),
    (0, 0x8000_0065, 0, 1),
    (1, 0x8000_0070, 1, 2),
    (3, 0xa000_0071, 1, 1),
];

/// The bytes that aren't zero, by hand: for each address the last segment that has it.
static BYTES: [(usize, u8); 21] = [
    (0, b'E'),
    (1, b'L'),
    (2, b'F'),
    (0x10, b'E'),
    (0x11, b'L'),
    (0x12, b'E'),
    (0x20, b'E'),
    (0x21, b'L'),
    (0x22, b'F'),
    (0x30, b'E'),
    (0x42, b'F'),
    (0x50, b'F'),
    (0x60, b'E'),
    (0x61, b'L'),
    (0x62, b'F'),
    (0x64, b'E'),
    (0x66, b'F'),
    (0x70, b'E'),
    (0x71, b'F'),
    (0xfff, b'E'),
    (0x13, 0),
];

#[test]
fn last_of_many_segments(rt: HostRuntime) -> Result<(), Fail> {
    let mut file = Vec::new(rt.alloc());
    push_header(&mut file, 20)?;
    for row in &SEGMENTS {
        push_segment(&mut file, row.0, row.1, row.2, row.3)?;
    }
    let image = load(rt.alloc(), &file, RAM)?;
    let mut expected = vec![in rt.alloc(); 0u8; 4096]?;
    for row in &BYTES {
        if row.0 < expected.len() {
            expected[row.0] = row.1;
        }
    }
    same(&rt, image.bytes.as_slice() == expected.as_slice(), true);
    same(&rt, image.entry, 0x8000_0000);
    Ok(())
}
