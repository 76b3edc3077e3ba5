//! The program that all processors run.

use m161_asm::assemble;
use m161_elf_writer::write;
use std::alloc::Global;

/// The Steps of processor 0 that start all others; each processor is at the loop's start then.
pub(crate) const START: u32 = 5 + 31 * 4 + 2;

/// Processor 0 writes the first address of the 31 others (of those that aren't there, the board
/// ignores it) and starts them; then all are at `both`. The loop is that of `m161_bench`.
const SOURCE: &str = "\
        lui     $8, 0xbfff
        ori     $9, $8, 0x8400      # the place of processor 1
        lui     $10, 0x8000
        ori     $10, $10, 0x022c
        ori     $11, $0, 31
next:   sw      $10, 768($9)        # its first address: both
        addiu   $11, $11, -1
        bne     $11, $0, next
        addiu   $9, $9, 1024        # the place of the next one
        addiu   $12, $0, -1
        sw      $12, 32276($8)      # CPUE
both:   lui     $16, 0x8000
        ori     $16, $16, 0x1000
loop:   lw      $8, 0($16)
        addu    $9, $8, $17
        sll     $10, $9, 3
        srl     $11, $9, 5
        xor     $9, $10, $11
        sw      $9, 0($16)
        lbu     $12, 2($16)
        addiu   $18, $18, 1
        slt     $13, $12, $9
        sb      $13, 4($16)
        bne     $18, $0, loop
        addu    $17, $17, $18
";

/// The file of the program.
pub(crate) fn image(alloc: Global) -> Option<Vec<u8>> {
    let program = assemble(alloc, SOURCE).ok()?;
    write(alloc, &program).ok()
}
