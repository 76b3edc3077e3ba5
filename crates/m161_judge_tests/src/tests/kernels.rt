//! Kernels of a few words.

use m161_judge::{Conf, LinkUnit};
use m161_test_support::files::file_from;
use m161_test_support::outcomes::ENTRY;
use std::alloc::{AllocError, Global};

/// Prints `hi`, polls the console before the second byte and before it switches off.
pub(crate) static HELLO: [u32; 19] = [
    0x3c08_bfe0, // lui $8, 0xbfe0
    0x3409_0068, // ori $9, $0, 0x0068
    0xad09_0000, // sw $9, 0($8)
    0x8d0a_0004, // lw $10, 4($8)
    0x314a_0002, // andi $10, $10, 0x0002
    0x1140_fffd, // beq $10, $0, to the load
    0, // nop
    0xad00_0004, // sw $0, 4($8)
    0x3409_0069, // ori $9, $0, 0x0069
    0xad09_0000, // sw $9, 0($8)
    0x8d0a_0004, // lw $10, 4($8)
    0x314a_0002, // andi $10, $10, 0x0002
    0x1140_fffd, // beq $10, $0, to the load
    0, // nop
    0x3c0b_bfff, // lui $11, 0xbfff
    0x356b_7c00, // ori $11, $11, 0x7c00
    0xad60_0208, // sw $0, 520($11)
    0, // nop
    0, // nop
];

/// Waits with Status 0.
pub(crate) static WAIT: [u32; 1] = [0x4200_0020];

/// Goes round in a circle.
pub(crate) static LOOP: [u32; 2] = [
    0x1000_ffff, // beq $0, $0, to itself
    0, // nop
];

/// Prints `h`, and then waits with Status 0.
pub(crate) static LETTER: [u32; 4] = [
    0x3c08_bfe0, // lui $8, 0xbfe0
    0x3409_0068, // ori $9, $0, 0x0068
    0xad09_0000, // sw $9, 0($8)
    0x4200_0020, // wait
];

/// A machine of one processor.
pub(crate) const ONE: Conf = Conf {
    ram: 4096,
    processors: 1,
    log: 1000,
    link: LinkUnit::Word,
    strict: false,
};

/// The file of a kernel.
pub(crate) fn file_with(alloc: Global, words: &[u32]) -> Result<Vec<u8>, AllocError> {
    file_from(alloc, ENTRY, ENTRY, words)
}
