//! Bytes and words of memory.

use super::same;
use m161_ram::Ram;
use std::alloc::{AllocError, Global};

#[test]
fn words_and_bytes(rt: HostRuntime) -> Result<(), AllocError> {
    let mut ram = Ram::new(rt.alloc(), 4096)?;
    same(&rt, (ram.size(), ram.word(0)), (4096, 0));
    ram.set_word(8, 0x1122_3344);
    ram.set_byte(11, 0x55);
    same(&rt, (ram.byte(8), ram.word(8)), (0x11, 0x1122_3355));

    let ram = Ram::from_bytes(vec![in rt.alloc(); 0xab, 0xcd, 0xef, 0x01]?);
    same(&rt, (ram.size(), ram.word(0)), (4, 0xabcd_ef01));
    Ok(())
}

/// The size of RAM of this many bytes, and its last word before its last byte is set and after it.
fn end_of(alloc: Global, size: u32) -> Result<[u32; 3], AllocError> {
    let mut ram = Ram::new(alloc, size)?;
    if size < 4 {
        return Ok([ram.size(), 0, 0]);
    }
    let before = ram.word(size - 4);
    ram.set_byte(size - 1, 0xab);
    Ok([ram.size(), before, ram.word(size - 4)])
}

#[test]
fn largest_memory(rt: HostRuntime) -> Result<(), AllocError> {
    same(&rt, end_of(rt.alloc(), 16_777_216)?, [16_777_216, 0, 0xab]);
    Ok(())
}
