//! What a Step loads.

use super::same;
use super::traced::{Run, loads_of};
use m161_machine::Event::{Key, Step};
use std::test::Fail;

/// Loads of a byte, of a part of a word, of a word that stays as it is, and with a link; through
/// kseg1; a store, and a load of what was stored; and one that traps.
static RAM: Run = Run {
    words: &[
        0x3c08_8000, // lui $8, 0x8000
        0x8109_0203, // lb $9, 515($8)
        0x8909_0205, // lwl $9, 517($8)
        0xc10a_0200, // ll $10, 512($8)
        0xe10a_0200, // sc $10, 512($8)
        0x3c0b_a000, // lui $11, 0xa000
        0xad6a_0400, // sw $10, 1024($11)
        0x950c_0402, // lhu $12, 1026($8)
        0x8d00_0400, // lw $0, 1024($8)
        0x8d0c_0401, // lw $12, 1025($8)
    ],
    processors: 1,
    strict: false,
    events: &[(Step(0), 10)],
};

const OF_RAM: &str = "\
0 0 80000200 3c088000 lui $8, 0x8000  r8=80000000
1 0 80000204 81090203 lb $9, 515($8)  (00000200)=3c088000
2 0 80000208 89090205 lwl $9, 517($8)  (00000204)=81090203 r9=09020300
3 0 8000020c c10a0200 ll $10, 512($8)  (00000200)=3c088000 r10=3c088000 link=00000200
4 0 80000210 e10a0200 sc $10, 512($8)  r10=00000001 [00000200]=3c088000 unlink 0
5 0 80000214 3c0ba000 lui $11, 0xa000  r11=a0000000
6 0 80000218 ad6a0400 sw $10, 1024($11)  [00000400]=00000001
7 0 8000021c 950c0402 lhu $12, 1026($8)  (00000400)=00000001 r12=00000001
8 0 80000220 8d000400 lw $0, 1024($8)  (00000400)=00000001
9 0 80000224 8d0c0401 lw $12, 1025($8)  badvaddr=80000401 cause=00000010 epc=80000224 trap 4 80000080
";

/// Loads from slots: of RIRQ, of CHAR to a register and to none, and of SELF twice.
static SLOTS: Run = Run {
    words: &[
        0x3c08_bfe0, // lui $8, 0xbfe0
        0x8d09_0008, // lw $9, 8($8)
        0x8d0a_0000, // lw $10, 0($8)
        0x8d00_0000, // lw $0, 0($8)
        0x3c0b_bfff, // lui $11, 0xbfff
        0x8d69_7e18, // lw $9, 32280($11)
        0x8d69_7e18, // lw $9, 32280($11)
    ],
    processors: 1,
    strict: false,
    events: &[(Key(0x0a), 1), (Step(0), 7)],
};

const OF_SLOTS: &str = "\
0 k 0a
1 0 80000200 3c08bfe0 lui $8, 0xbfe0  r8=bfe00000
2 0 80000204 8d090008 lw $9, 8($8)  (1fe00008)=00000002 r9=00000002
3 0 80000208 8d0a0000 lw $10, 0($8)  (1fe00000)=0000000a r10=0000000a waiting=0 rirq=00000000
4 0 8000020c 8d000000 lw $0, 0($8)
5 0 80000210 3c0bbfff lui $11, 0xbfff  r11=bfff0000
6 0 80000214 8d697e18 lw $9, 32280($11)  (1fff7e18)=00000001 r9=00000001
7 0 80000218 8d697e18 lw $9, 32280($11)  (1fff7e18)=00000001
";

#[test]
fn trace_loads_of_ram(rt: HostRuntime) -> Result<(), Fail> {
    let text = loads_of(&rt, &RAM)?;
    same(&rt, text.as_str(), OF_RAM);
    Ok(())
}

#[test]
fn trace_loads_of_slots(rt: HostRuntime) -> Result<(), Fail> {
    let text = loads_of(&rt, &SLOTS)?;
    same(&rt, text.as_str(), OF_SLOTS);
    Ok(())
}
