//! Merges of a word of memory and a register, byte by byte.

ghost use Rattle.std.specs.Prelude.{◌≡◌, ◌%◌};
ghost use Rattle.m161_alu.specs.Merge.{merged_left, merged_right, stored_left, stored_right};

/// The register after `lwl` of a byte's address, with the word of memory that holds it: the
/// memory's bytes from there to the word's end, then the register's low bytes.
#[inline(always)]
pub fn merge_left(memory: u32, register: u32, address: u32) -> u32
    ensures { result ≡ merged_left memory register (address % 4) }
{
    let memory = memory.to_be_bytes();
    let register = register.to_be_bytes();
    u32::from_be_bytes(match address % 4 {
        0 => memory,
        1 => [memory[1], memory[2], memory[3], register[3]],
        2 => [memory[2], memory[3], register[2], register[3]],
        _ => [memory[3], register[1], register[2], register[3]],
    })
}

/// The register after `lwr` of a byte's address, with the word of memory that holds it: the
/// register's high bytes, then the memory's bytes from the word's start to there.
#[inline(always)]
pub fn merge_right(memory: u32, register: u32, address: u32) -> u32
    ensures { result ≡ merged_right memory register (address % 4) }
{
    let memory = memory.to_be_bytes();
    let register = register.to_be_bytes();
    u32::from_be_bytes(match address % 4 {
        0 => [register[0], register[1], register[2], memory[0]],
        1 => [register[0], register[1], memory[0], memory[1]],
        2 => [register[0], memory[0], memory[1], memory[2]],
        _ => memory,
    })
}

/// The word of memory after `swl` at a byte's address: the memory's bytes before it, then the
/// register's high bytes.
#[inline(always)]
pub fn store_left(memory: u32, register: u32, address: u32) -> u32
    ensures { result ≡ stored_left memory register (address % 4) }
{
    let memory = memory.to_be_bytes();
    let register = register.to_be_bytes();
    u32::from_be_bytes(match address % 4 {
        0 => register,
        1 => [memory[0], register[0], register[1], register[2]],
        2 => [memory[0], memory[1], register[0], register[1]],
        _ => [memory[0], memory[1], memory[2], register[0]],
    })
}

/// The word of memory after `swr` at a byte's address: the register's low bytes up to there, then
/// the memory's bytes.
#[inline(always)]
pub fn store_right(memory: u32, register: u32, address: u32) -> u32
    ensures { result ≡ stored_right memory register (address % 4) }
{
    let memory = memory.to_be_bytes();
    let register = register.to_be_bytes();
    u32::from_be_bytes(match address % 4 {
        0 => [register[3], memory[1], memory[2], memory[3]],
        1 => [register[2], register[3], memory[2], memory[3]],
        2 => [register[1], register[2], register[3], memory[3]],
        _ => register,
    })
}
