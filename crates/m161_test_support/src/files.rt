//! ELF files of a few words.

use std::alloc::{AllocError, Global};

/// The header of a file with one segment, and that segment's program header, as words.
pub const HEADERS: [u32; 21] = [
    0x7f45_4c46,
    0x0102_0100,
    0,
    0,
    0x0002_0008,
    1,
    0x8000_0200,
    0x34,
    0,
    0,
    0x0034_0020,
    0x0001_0000,
    0,
    1,
    0x54,
    0x8000_0200,
    0x8000_0200,
    0x1c,
    0x1c,
    7,
    4,
];

/// The segment's words.
pub const PROGRAM: [u32; 7] = [
    0x3c08_1234,
    0x3508_5678,
    0x2409_ffff,
    0x0109_5021,
    0x3c0b_8000,
    0xad6a_0400,
    0x8d6c_0400,
];

/// The place of the file's class, as a word of the headers.
pub const CLASS: usize = 1;

pub const TYPE: usize = 4;

pub const ENTRY: usize = 6;

pub const HEADER_COUNT: usize = 11;

pub const OFFSET: usize = 14;

pub const ADDRESS: usize = 15;

pub const FILE_SIZE: usize = 17;

pub const MEMORY_SIZE: usize = 18;

/// A file of these headers, with some of their words changed, and of these words.
pub fn file_of(
    alloc: Global,
    edits: &[(usize, u32)],
    words: &[u32],
) -> Result<Vec<u8>, AllocError> {
    let mut headers = HEADERS;
    for (place, word) in edits {
        if let Some(place) = headers.get_mut(*place) {
            *place = *word;
        }
    }
    let mut file = Vec::new(alloc);
    for word in headers.iter().chain(words) {
        file.extend_from_slice(&word.to_be_bytes())?;
    }
    Ok(file)
}

/// A file with these words at an address, where it begins.
pub fn file_at(alloc: Global, entry: u32, words: &[u32]) -> Result<Vec<u8>, AllocError> {
    file_from(alloc, entry, entry, words)
}

/// A file with these words at an address, which begins at another.
pub fn file_from(
    alloc: Global,
    entry: u32,
    address: u32,
    words: &[u32],
) -> Result<Vec<u8>, AllocError> {
    let size = u32::try_from(words.len())
        .unwrap_or(u32::MAX)
        .wrapping_mul(4);
    let edits = [
        (ENTRY, entry),
        (ADDRESS, address),
        (FILE_SIZE, size),
        (MEMORY_SIZE, size),
    ];
    file_of(alloc, &edits, words)
}

/// A file of these headers and of this segment, byte by byte.
pub static IMAGE: [u8; 112] = [
    0x7f, 0x45, 0x4c, 0x46, 0x01, 0x02, 0x01, 0x00, 0x00, 0x00, 0x00, 0x00, 0x00, 0x00, 0x00, 0x00,
    0x00, 0x02, 0x00, 0x08, 0x00, 0x00, 0x00, 0x01, 0x80, 0x00, 0x02, 0x00, 0x00, 0x00, 0x00, 0x34,
    0x00, 0x00, 0x00, 0x00, 0x00, 0x00, 0x00, 0x00, 0x00, 0x34, 0x00, 0x20, 0x00, 0x01, 0x00, 0x00,
    0x00, 0x00, 0x00, 0x00, 0x00, 0x00, 0x00, 0x01, 0x00, 0x00, 0x00, 0x54, 0x80, 0x00, 0x02, 0x00,
    0x80, 0x00, 0x02, 0x00, 0x00, 0x00, 0x00, 0x1c, 0x00, 0x00, 0x00, 0x1c, 0x00, 0x00, 0x00, 0x07,
    0x00, 0x00, 0x00, 0x04, 0x3c, 0x08, 0x12, 0x34, 0x35, 0x08, 0x56, 0x78, 0x24, 0x09, 0xff, 0xff,
    0x01, 0x09, 0x50, 0x21, 0x3c, 0x0b, 0x80, 0x00, 0xad, 0x6a, 0x04, 0x00, 0x8d, 0x6c, 0x04, 0x00,
];
