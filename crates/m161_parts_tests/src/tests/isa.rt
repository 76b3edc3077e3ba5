//! Addresses that name memory without the TLB.

use super::same;
use m161_isa::unmapped;

#[test]
fn physical_addresses(rt: HostRuntime) {
    for (address, expected) in [
        (0, None),
        (0x7fff_ffff, None),
        (0x8000_0000, Some(0)),
        (0x9fff_ffff, Some(0x1fff_ffff)),
        (0xa000_0000, Some(0)),
        (0xbfff_ffff, Some(0x1fff_ffff)),
        (0xc000_0000, None),
    ] {
        same(&rt, (address, unmapped(address)), (address, expected));
    }
}
