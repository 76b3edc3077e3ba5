//! The text of a word.

use super::listing::last_step;
use super::same;
use m161::Machine;
use m161_dis::line;
use m161_test_support::outcomes::{ENTRY, RAN, RESERVED};
use std::test::Fail;

/// Words, the address of each, and its text.
static LINES: [(u32, u32, &str); 5] = [
    (0x0000_0000, 0x8000_0200, "nop"),
    (0x0000_0060, 0x8000_0200, ".word 0x00000060"),
    (0x4200_0008, 0x8000_0200, "tlbp"),
    (0xffff_ffff, 0x8000_0200, ".word 0xffffffff"),
    (0x11e0_fffe, 0x8000_0248, "beq $15, $0, 0x80000244"),
];

#[test]
fn disassembled_words(rt: HostRuntime) -> Result<(), Fail> {
    for &(word, at, expected) in &LINES {
        let text = line(rt.alloc(), word, at)?;
        same(&rt, (word, text.as_str()), (word, expected));
    }
    // the second is executed as `add`, and the fourth traps
    for &(word, answer) in &[(0x0000_0060, RAN), (0xffff_ffff, RESERVED)] {
        let _machine: Machine = last_step(&rt, "disassembled-words", ENTRY, &[word], 1, answer)?;
    }
    Ok(())
}
