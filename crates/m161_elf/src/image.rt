//! The image of a file, and why a file may be refused.

ghost use Rattle.std.specs.Prelude.{◌≡◌};
ghost use Rattle.m161_elf.specs.LoadError.{name_of_fault, number_of_fault};

use thiserror::Error;

/// The image of a file: the address of the first fetch, and the bytes of all of RAM.
#[derive(Drop)]
pub struct Image {
    /// The address of the first instruction, in kseg0 or kseg1.
    pub entry: u32,
    /// RAM, from physical address 0 on.
    pub bytes: Vec<u8>,
}

/// Why a file isn't loaded. Each is returned only if none above it holds, `NoMemory` only if no
/// fault holds.
#[derive(Clone, Copy, Debug, PartialEq, Eq, Error)]
pub enum LoadError {
    /// The file has fewer than 52 bytes.
    #[error("the file is shorter than an ELF header")]
    Truncated,
    /// The file doesn't begin like a big-endian ELF32 file of version 1.
    #[error("the file is not a big-endian ELF32 file")]
    NotElf32Big,
    /// e_type isn't 2.
    #[error("the file is not an executable")]
    NotExecutable,
    /// e_machine isn't 8.
    #[error("the file is not for MIPS")]
    NotMips,
    /// There are program headers, and e_phentsize isn't 32 or the table ends past the file's end.
    #[error("the table of program headers is bad")]
    BadHeaderTable,
    /// A segment's bytes end past the file's end.
    #[error("a segment ends past the file's end")]
    SegmentOutsideFile,
    /// A segment's memory isn't all in RAM by kseg0, or all in RAM by kseg1.
    #[error("a segment lies outside RAM")]
    SegmentOutsideRam,
    /// A segment has more bytes in the file than in memory.
    #[error("a segment is larger in the file than in memory")]
    FileLargerThanMemory,
    /// The entry is misaligned, or not in RAM by kseg0 or kseg1.
    #[error("the entry is misaligned or outside RAM")]
    BadEntry,
    /// Memory was refused.
    #[error("out of memory")]
    NoMemory,
}

impl LoadError {
    /// Its place in the order of the faults, from 1 on.
    pub fn number(self) -> u8
        ensures { result ≡ number_of_fault self }
    {
        match self {
            LoadError::Truncated => 1,
            LoadError::NotElf32Big => 2,
            LoadError::NotExecutable => 3,
            LoadError::NotMips => 4,
            LoadError::BadHeaderTable => 5,
            LoadError::SegmentOutsideFile => 6,
            LoadError::SegmentOutsideRam => 7,
            LoadError::FileLargerThanMemory => 8,
            LoadError::BadEntry => 9,
            LoadError::NoMemory => 10,
        }
    }

    /// The name of the variant.
    pub fn name(self) -> &'static str
        ensures { result.now ≡ name_of_fault self }
    {
        match self {
            LoadError::Truncated => "Truncated",
            LoadError::NotElf32Big => "NotElf32Big",
            LoadError::NotExecutable => "NotExecutable",
            LoadError::NotMips => "NotMips",
            LoadError::BadHeaderTable => "BadHeaderTable",
            LoadError::SegmentOutsideFile => "SegmentOutsideFile",
            LoadError::SegmentOutsideRam => "SegmentOutsideRam",
            LoadError::FileLargerThanMemory => "FileLargerThanMemory",
            LoadError::BadEntry => "BadEntry",
            LoadError::NoMemory => "NoMemory",
        }
    }
}
