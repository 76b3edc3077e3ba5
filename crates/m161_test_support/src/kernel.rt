//! A small kernel of two processors that moves a page, and a schedule.

use crate::files::file_from;
use crate::outcomes::{ENTRY, INTERRUPT, LOAD_MISS, OFF, RAN, Times};
use m161_machine::Event::Step;
use std::alloc::{AllocError, Global};

/// The kernel: the physical address of each word, the word and its text. Processor 0 moves a page
/// that processor 1 reads, makes it drop the stale row by an interrupt, and switches off once it
/// has read the new frame.
pub static KERNEL: [(u32, u32, &str); 70] = [
    (0, 0x3c1a_8000, "lui $26, 0x8000"),
    (4, 0x8f5a_3000, "lw $26, 12288($26)"),
    (8, 0x409a_1000, "mtc0 $26, $2"),
    (0xc, 0x4200_0006, "tlbwr"),
    (0x10, 0x401b_7000, "mfc0 $27, $14"),
    (0x14, 0x0360_0008, "jr $27"),
    (0x18, 0x4200_0010, "rfe"),
    (0x80, 0x4200_0008, "tlbp"),
    (0x84, 0x4018_0000, "mfc0 $24, $0"),
    (0x88, 0x4019_5000, "mfc0 $25, $10"),
    (0x8c, 0x0700_0007, "bltz $24, 0x800000ac"),
    (0x90, 0x0018_c100, "sll $24, $24, 4"),
    (0x94, 0x3c1a_8000, "lui $26, 0x8000"),
    (0x98, 0x031a_c025, "or $24, $24, $26"),
    (0x9c, 0x4098_5000, "mtc0 $24, $10"),
    (0xa0, 0x4080_1000, "mtc0 $0, $2"),
    (0xa4, 0x4200_0002, "tlbwi"),
    (0xa8, 0x4099_5000, "mtc0 $25, $10"),
    (0xac, 0x3c1a_bfff, "lui $26, 0xbfff"),
    (0xb0, 0x375a_8400, "ori $26, $26, 0x8400"),
    (0xb4, 0xaf40_0004, "sw $0, 4($26)"),
    (0xb8, 0x3c1a_8000, "lui $26, 0x8000"),
    (0xbc, 0x241b_0001, "addiu $27, $0, 1"),
    (0xc0, 0xaf5b_3008, "sw $27, 12296($26)"),
    (0xc4, 0x401b_7000, "mfc0 $27, $14"),
    (0xc8, 0x0360_0008, "jr $27"),
    (0xcc, 0x4200_0010, "rfe"),
    (0x200, 0x3c08_8000, "lui $8, 0x8000"),
    (0x204, 0x3409_5600, "ori $9, $0, 0x5600"),
    (0x208, 0xad09_3000, "sw $9, 12288($8)"),
    (0x20c, 0x3c0a_bfff, "lui $10, 0xbfff"),
    (0x210, 0x354b_8400, "ori $11, $10, 0x8400"),
    (0x214, 0x3c0c_8000, "lui $12, 0x8000"),
    (0x218, 0x358c_0280, "ori $12, $12, 0x0280"),
    (0x21c, 0xad6c_0300, "sw $12, 768($11)"),
    (0x220, 0x340d_0002, "ori $13, $0, 2"),
    (0x224, 0x354e_7c00, "ori $14, $10, 0x7c00"),
    (0x228, 0xadcd_0214, "sw $13, 532($14)"),
    (0x22c, 0x8d0f_300c, "lw $15, 12300($8)"),
    (0x230, 0x11e0_fffe, "beq $15, $0, 0x8000022c"),
    (0x234, 0x0000_0000, "nop"),
    (0x238, 0x3409_6600, "ori $9, $0, 0x6600"),
    (0x23c, 0xad09_3000, "sw $9, 12288($8)"),
    (0x240, 0xad6d_0004, "sw $13, 4($11)"),
    (0x244, 0x8d0f_3008, "lw $15, 12296($8)"),
    (0x248, 0x11e0_fffe, "beq $15, $0, 0x80000244"),
    (0x24c, 0x0000_0000, "nop"),
    (0x250, 0xad0d_3004, "sw $13, 12292($8)"),
    (0x254, 0x8d0f_3010, "lw $15, 12304($8)"),
    (0x258, 0x11e0_fffe, "beq $15, $0, 0x80000254"),
    (0x25c, 0x0000_0000, "nop"),
    (0x260, 0xadc0_0208, "sw $0, 520($14)"),
    (0x280, 0x3408_0140, "ori $8, $0, 0x0140"),
    (0x284, 0x4088_5000, "mtc0 $8, $10"),
    (0x288, 0x3408_0801, "ori $8, $0, 0x0801"),
    (0x28c, 0x3c09_0040, "lui $9, 0x0040"),
    (0x290, 0x3c0a_8000, "lui $10, 0x8000"),
    (0x294, 0x340c_0001, "ori $12, $0, 1"),
    (0x298, 0x8d2b_0000, "lw $11, 0($9)"),
    (0x29c, 0xad4c_300c, "sw $12, 12300($10)"),
    (0x2a0, 0x8d2b_0000, "lw $11, 0($9)"),
    (0x2a4, 0x4088_6000, "mtc0 $8, $12"),
    (0x2a8, 0x4080_6000, "mtc0 $0, $12"),
    (0x2ac, 0x1160_fffc, "beq $11, $0, 0x800002a0"),
    (0x2b0, 0x0000_0000, "nop"),
    (0x2b4, 0xad4b_3010, "sw $11, 12304($10)"),
    (0x2b8, 0x4200_0020, "wait"),
    (0x2bc, 0x1000_fffe, "beq $0, $0, 0x800002b8"),
    (0x2c0, 0x0000_0000, "nop"),
    (0x6000, 0x0000_0007, ".word 7"),
];

/// A schedule on which it ends.
pub static SCHEDULE: [Times; 14] = [
    (Step(0), 11, RAN),
    (Step(1), 6, RAN),
    (Step(1), 1, LOAD_MISS),
    (Step(1), 9, RAN),
    (Step(0), 6, RAN),
    (Step(1), 2, RAN),
    (Step(1), 1, INTERRUPT),
    (Step(1), 20, RAN),
    (Step(0), 4, RAN),
    (Step(1), 3, RAN),
    (Step(1), 1, LOAD_MISS),
    (Step(1), 13, RAN),
    (Step(0), 3, RAN),
    (Step(0), 1, OFF),
];

// Puts a word at a physical address, if the words reach it.
fn put(words: &mut Vec<u32>, at: u32, word: u32) {
    if let Some(place) = words.get_mut(at as usize / 4) {
        *place = word;
    }
}

/// The kernel's file: one segment from physical address 0 on.
pub fn kernel_file(alloc: Global) -> Result<Vec<u8>, AllocError> {
    kernel_with(alloc, &[])
}

/// The kernel's file with other words at these physical addresses.
pub fn kernel_with(alloc: Global, changes: &[(u32, u32)]) -> Result<Vec<u8>, AllocError> {
    let mut words = Vec::new(alloc);
    for _place in 0..6145 {
        words.push(0)?;
    }
    for (at, word, _) in &KERNEL {
        put(&mut words, *at, *word);
    }
    for (at, word) in changes {
        put(&mut words, *at, *word);
    }
    file_from(alloc, ENTRY, 0x8000_0000, &words)
}
