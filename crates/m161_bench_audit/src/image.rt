//! The programs that the benchmark runs, from their texts to the files that a machine boots.

use m161_asm::assemble;
use m161_elf_writer::write;
use std::alloc::{AllocError, Global};

/// Stores to the page table's entries and the marks of 64 watches, so that all initiators have gone
/// on. Each entry is frame 1, writable, valid and global.
const STORES: &str = "\
        lui     $8, 0x8000
        ori     $8, $8, 0x4000
        ori     $9, $0, 0x1700
        ori     $10, $0, 64
watch:  sw      $9, 0($8)
        sw      $9, 4($8)
        addiu   $10, $10, -1
        bne     $10, $0, watch
        addiu   $8, $8, 8
";

/// The loop of `m161_bench`, at the start of frame 1. Its data is at the address in $16.
const LOOP: &str = "\
        .org    0x80001000
loop:   lw      $8, 0($16)
        addu    $9, $8, $17
        sll     $10, $9, 3
        srl     $11, $9, 5
        xor     $9, $10, $11
        sw      $9, 0($16)
        lbu     $12, 2($16)
        addiu   $18, $18, 1
        slt     $13, $12, $9
        sb      $13, 4($16)
        bne     $18, $0, loop
        addu    $17, $17, $18
";

// The text that goes to the loop in kseg0.
fn in_kseg0(alloc: Global) -> Result<String, AllocError> {
    format!(in alloc;
        "\
{STORES}
        lui     $16, 0x8000
        ori     $16, $16, 0x1800
        j       loop
        nop
{LOOP}"
    )
}

// The text that maps the page of the loop, at 00400000, by a row of the TLB, and goes there: the
// loop's data is in the same page.
fn mapped_by(alloc: Global, row: u8) -> Result<String, AllocError> {
    let index = u32::from(row) * 256;
    format!(in alloc;
        "\
{STORES}
        lui     $8, 0x0040
        mtc0    $8, $10             # EntryHi
        ori     $9, $0, 0x1700
        mtc0    $9, $2              # EntryLo: as the page table's entries
        ori     $10, $0, {index}    # the row, in the upper byte
        mtc0    $10, $0             # Index
        tlbwi
        lui     $16, 0x0040
        ori     $16, $16, 0x0800
        jr      $8
        nop
{LOOP}"
    )
}

/// The file of the loop, in kseg0 or mapped by a row.
pub(crate) fn image(alloc: Global, row: Option<u8>) -> Option<Vec<u8>> {
    let source = match row {
        Some(row) => mapped_by(alloc, row).ok()?,
        None => in_kseg0(alloc).ok()?,
    };
    let program = assemble(alloc, source.as_str()).ok()?;
    write(alloc, &program).ok()
}
