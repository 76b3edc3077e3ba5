//! The addresses of RAM.

ghost use Rattle.std.specs.Prelude.{◌≡◌};
ghost use Rattle.m161_elf.specs.Image.{is_in_ram, place_in_ram};

use m161_isa::{KSEG_SIZE, unmapped};

/// Whether `size` bytes from an address on are in `ram` bytes of RAM, all of them by kseg0 or all
/// by kseg1.
pub fn is_in_ram(ram: u32, address: u32, size: u32) -> bool
    ensures { result ≡ is_in_ram ram address size }
{
    let end = u64::from(ram.min(KSEG_SIZE));
    unmapped(address).is_some_and(|at| u64::from(at) + u64::from(size) <= end)
}

/// The physical address of an address; 0 for one outside kseg0 and kseg1.
pub(crate) fn place_in_ram(address: u32) -> u32
    ensures { result ≡ place_in_ram address }
{
    unmapped(address).unwrap_or(0)
}
