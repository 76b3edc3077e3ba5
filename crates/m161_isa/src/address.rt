//! Addresses.

ghost use Rattle.std.specs.Prelude.{◌≡◌};
ghost use Rattle.m161_isa.specs.Address.{unmapped};

/// Where kseg0 begins; kseg1 comes after it.
const KSEG0: u32 = 0x8000_0000;

/// Where kseg2 begins, which needs the TLB.
const KSEG2: u32 = 0xc000_0000;

/// The size in bytes of each of kseg0 and kseg1.
pub const KSEG_SIZE: u32 = 0x2000_0000;

/// The physical address of an address in kseg0 or kseg1; `None` for others, which need the TLB.
pub fn unmapped(address: u32) -> Option<u32>
    ensures { result ≡ unmapped address }
{
    if (KSEG0..KSEG2).contains(&address) {
        Some(address % KSEG_SIZE)
    } else {
        None
    }
}
