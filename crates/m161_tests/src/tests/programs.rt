//! Worked rows of small programs.
//!
//! To add one, copy a row: give it a name, the address of its first word, and its words with their
//! texts. `s161 as` makes the words of a text, and `s161 dis` prints them with their addresses and
//! texts. Then say how many Steps are made, what the last one answers (`RAN`, or a trap's name in
//! `listing`; the others have to be `RAN`), and what is left: registers, HI, LO, words of memory,
//! the address where it goes on, and whether that is in a delay slot. Raise the length of the
//! table, and run `rt test` in `crates/m161_tests`: it proves the tests and runs them.

use super::listing::Left::{Hi, Lo, Memory, Pc, Register, Slot};
use super::listing::{Worked, check};
use m161_test_support::outcomes::{
    ADDRESS_LOAD, BREAKPOINT, BUS_FETCH, ENTRY, LOAD_MISS, OVERFLOW, RAN, RESERVED, SYSCALL,
};
use std::test::Fail;

static SUMS: [Worked; 2] = [
    Worked {
        name: "a sum that overflows",
        entry: ENTRY,
        program: &[
            (0x3c08_7fff, "lui $8, 0x7fff"),
            (0x3508_ffff, "ori $8, $8, 0xffff"),
            (0x3409_0011, "ori $9, $0, 0x0011"),
            (0x2109_0011, "addi $9, $8, 17"),
        ],
        steps: 4,
        last: OVERFLOW,
        left: &[Register(9, 0x11), Pc(0x8000_0080), Slot(false)],
    },
    Worked {
        name: "a load read by the next instruction",
        entry: ENTRY,
        program: &[
            (0x3c10_8000, "lui $16, 0x8000"),
            (0x8e08_0200, "lw $8, 512($16)"),
            (0x2508_0001, "addiu $8, $8, 1"),
            (0xae08_0400, "sw $8, 1024($16)"),
        ],
        steps: 4,
        last: RAN,
        left: &[Register(8, 0x3c10_8001), Memory(0x400, 0x3c10_8001)],
    },
];

static LINK_REGISTERS: [Worked; 4] = [
    Worked {
        name: "a link is written where the branch isn't taken",
        entry: ENTRY,
        program: &[(0x0410_0004, "bltzal $0, 0x80000214"), (0, "nop")],
        steps: 2,
        last: RAN,
        left: &[Register(31, 0x8000_0208), Pc(0x8000_0208)],
    },
    Worked {
        name: "a branch tests its register before the link is written",
        entry: 0x8000_01fc,
        program: &[
            (0x3c1f_8000, "lui $31, 0x8000"),
            (0x07f1_0004, "bgezal $31, 0x80000214"),
            (0, "nop"),
        ],
        steps: 3,
        last: RAN,
        left: &[Register(31, 0x8000_0208), Pc(0x8000_0208)],
    },
    Worked {
        name: "a jump reads its target before the link is written",
        entry: 0x8000_01f8,
        program: &[
            (0x3c08_8000, "lui $8, 0x8000"),
            (0x3508_0400, "ori $8, $8, 0x0400"),
            (0x0100_4009, "jalr $8, $8"),
            (0, "nop"),
        ],
        steps: 4,
        last: RAN,
        left: &[Register(8, 0x8000_0208), Pc(0x8000_0400)],
    },
    Worked {
        name: "a jump keeps the upper bits of the address",
        entry: 0xa000_0200,
        program: &[(0x0c00_0095, "jal 0xa0000254"), (0, "nop")],
        steps: 2,
        last: RAN,
        left: &[Register(31, 0xa000_0208), Pc(0xa000_0254)],
    },
];

static DIVISIONS: [Worked; 2] = [
    Worked {
        name: "arithmetic: 7 by 0",
        entry: ENTRY,
        program: &[
            (0x3408_0007, "ori $8, $0, 0x0007"),
            (0x0100_001a, "div $8, $0"),
        ],
        steps: 2,
        last: RAN,
        left: &[Lo(0xffff_ffff), Hi(7)],
    },
    Worked {
        name: "arithmetic: the least number by -1",
        entry: ENTRY,
        program: &[
            (0x3c08_8000, "lui $8, 0x8000"),
            (0x2409_ffff, "addiu $9, $0, -1"),
            (0x0109_001a, "div $8, $9"),
        ],
        steps: 3,
        last: RAN,
        left: &[Lo(0x8000_0000), Hi(0)],
    },
];

static SLOTS: [Worked; 6] = [
    Worked {
        name: "after a taken branch",
        entry: ENTRY,
        program: &[(0x1000_0002, "beq $0, $0, 0x8000020c")],
        steps: 1,
        last: RAN,
        left: &[Slot(true), Register(10, 0), Pc(0x8000_0204)],
    },
    Worked {
        name: "after a taken branch and its slot",
        entry: ENTRY,
        program: &[
            (0x1000_0002, "beq $0, $0, 0x8000020c"),
            (0x240a_0005, "addiu $10, $0, 5"),
        ],
        steps: 2,
        last: RAN,
        left: &[Slot(false), Register(10, 5), Pc(0x8000_020c)],
    },
    Worked {
        name: "after an untaken branch",
        entry: ENTRY,
        program: &[(0x1400_0002, "bne $0, $0, 0x8000020c")],
        steps: 1,
        last: RAN,
        left: &[Slot(true), Register(10, 0), Pc(0x8000_0204)],
    },
    Worked {
        name: "after an untaken branch and its slot",
        entry: ENTRY,
        program: &[
            (0x1400_0002, "bne $0, $0, 0x8000020c"),
            (0x240a_0005, "addiu $10, $0, 5"),
        ],
        steps: 2,
        last: RAN,
        left: &[Slot(false), Register(10, 5), Pc(0x8000_0208)],
    },
    Worked {
        name: "after a jump",
        entry: ENTRY,
        program: &[(0x0800_0080, "j 0x80000200")],
        steps: 1,
        last: RAN,
        left: &[Slot(true), Register(10, 0), Pc(0x8000_0204)],
    },
    Worked {
        name: "after a jump and its slot",
        entry: ENTRY,
        program: &[
            (0x0800_0080, "j 0x80000200"),
            (0x240a_0005, "addiu $10, $0, 5"),
        ],
        steps: 2,
        last: RAN,
        left: &[Slot(false), Register(10, 5), Pc(0x8000_0200)],
    },
];

static BRANCHES_IN_SLOTS: [Worked; 6] = [
    Worked {
        name: "a branch after a taken one",
        entry: ENTRY,
        program: &[
            (0x1000_0002, "beq $0, $0, 0x8000020c"),
            (0x1000_0002, "beq $0, $0, 0x80000210"),
        ],
        steps: 2,
        last: RESERVED,
        left: &[Pc(0x8000_0080), Slot(false)],
    },
    Worked {
        name: "a branch after an untaken one",
        entry: ENTRY,
        program: &[
            (0x1400_0002, "bne $0, $0, 0x8000020c"),
            (0x1000_0002, "beq $0, $0, 0x80000210"),
        ],
        steps: 2,
        last: RESERVED,
        left: &[Pc(0x8000_0080), Slot(false)],
    },
    Worked {
        name: "a branch with a link after an untaken one",
        entry: ENTRY,
        program: &[
            (0x1400_0002, "bne $0, $0, 0x8000020c"),
            (0x0410_0002, "bltzal $0, 0x80000210"),
        ],
        steps: 2,
        last: RESERVED,
        left: &[Register(31, 0), Pc(0x8000_0080), Slot(false)],
    },
    Worked {
        name: "a jump with a link after an untaken branch",
        entry: ENTRY,
        program: &[
            (0x1400_0002, "bne $0, $0, 0x8000020c"),
            (0x0c00_0095, "jal 0x80000254"),
        ],
        steps: 2,
        last: RESERVED,
        left: &[Register(31, 0), Pc(0x8000_0080), Slot(false)],
    },
    Worked {
        name: "a jump by a register after a jump",
        entry: ENTRY,
        program: &[(0x0800_0095, "j 0x80000254"), (0x0100_0008, "jr $8")],
        steps: 2,
        last: RESERVED,
        left: &[Pc(0x8000_0080), Slot(false)],
    },
    Worked {
        name: "a jump by a register with a link after a branch with a link",
        entry: ENTRY,
        program: &[
            (0x0410_0002, "bltzal $0, 0x8000020c"),
            (0x0100_f809, "jalr $31, $8"),
        ],
        steps: 2,
        last: RESERVED,
        left: &[Register(31, 0x8000_0208), Pc(0x8000_0080), Slot(false)],
    },
];

static TRAPS: [Worked; 2] = [
    Worked {
        name: "a system call",
        entry: ENTRY,
        program: &[
            (0x3408_0005, "ori $8, $0, 0x0005"),
            (0x0000_000c, "syscall"),
        ],
        steps: 2,
        last: SYSCALL,
        left: &[Register(8, 5), Pc(0x8000_0080), Slot(false)],
    },
    Worked {
        name: "a breakpoint",
        entry: ENTRY,
        program: &[(0x3408_0005, "ori $8, $0, 0x0005"), (0x0000_000d, "break")],
        steps: 2,
        last: BREAKPOINT,
        left: &[Register(8, 5), Pc(0x8000_0080), Slot(false)],
    },
];

static FETCHES: [Worked; 3] = [
    Worked {
        name: "a fetch outside kseg0 and kseg1",
        entry: ENTRY,
        program: &[(0x0000_0008, "jr $0"), (0, "nop")],
        steps: 3,
        last: LOAD_MISS,
        left: &[Pc(0x8000_0000)],
    },
    Worked {
        name: "a fetch past RAM",
        entry: ENTRY,
        program: &[
            (0x3c08_8000, "lui $8, 0x8000"),
            (0x3508_1000, "ori $8, $8, 0x1000"),
            (0x0100_0008, "jr $8"),
            (0, "nop"),
        ],
        steps: 5,
        last: BUS_FETCH,
        left: &[Pc(0x8000_0080)],
    },
    Worked {
        name: "a misaligned fetch",
        entry: ENTRY,
        program: &[
            (0x3c08_8000, "lui $8, 0x8000"),
            (0x3508_0202, "ori $8, $8, 0x0202"),
            (0x0100_0008, "jr $8"),
            (0, "nop"),
        ],
        steps: 5,
        last: ADDRESS_LOAD,
        left: &[Pc(0x8000_0080)],
    },
];

#[test]
fn sums(rt: HostRuntime) -> Result<(), Fail> {
    check(&rt, &SUMS)
}

#[test]
fn link_registers(rt: HostRuntime) -> Result<(), Fail> {
    check(&rt, &LINK_REGISTERS)
}

#[test]
fn arithmetic_divisions(rt: HostRuntime) -> Result<(), Fail> {
    check(&rt, &DIVISIONS)
}

#[test]
fn delay_slots(rt: HostRuntime) -> Result<(), Fail> {
    check(&rt, &SLOTS)
}

#[test]
fn branches_in_slots(rt: HostRuntime) -> Result<(), Fail> {
    check(&rt, &BRANCHES_IN_SLOTS)
}

#[test]
fn traps(rt: HostRuntime) -> Result<(), Fail> {
    check(&rt, &TRAPS)
}

#[test]
fn fetches(rt: HostRuntime) -> Result<(), Fail> {
    check(&rt, &FETCHES)
}
