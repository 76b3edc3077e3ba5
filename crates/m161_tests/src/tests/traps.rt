//! Traps: their codes, vectors and what they leave in coprocessor 0.

use super::listing::Left::{Cop, Pc, Register, Slot};
use super::listing::{Run, Stage, check_runs, check_with};
use m161_machine::Event::Step;
use m161_machine::{Exception, Outcome, Register as R};
use m161_test_support::outcomes::{
    ADDRESS_LOAD, ADDRESS_STORE, Answer, BREAKPOINT, BUS_DATA, BUS_FETCH, ENTRY, INTERRUPT,
    LOAD_MISS, OVERFLOW, RAN, RESERVED, STORE_MISS, SYSCALL, UNUSABLE,
};
use std::test::Fail;

const BOOT_SYSCALL: Answer = Ok(Outcome::Trapped {
    code: Exception::SystemCall,
    vector: 0xbfc0_0180,
});

const BOOT_FETCH: Answer = Ok(Outcome::Trapped {
    code: Exception::BusErrorFetch,
    vector: 0xbfc0_0180,
});

const BOOT_MISS: Answer = Ok(Outcome::Trapped {
    code: Exception::TlbLoad,
    vector: 0xbfc0_0100,
});

static TRAPS: [Run; 9] = [
    Run {
        name: "add-overflow",
        ram: 4_096,
        processors: 1,
        entry: ENTRY,
        base: ENTRY,
        program: &[
            (0x3c08_7fff, "lui $8, 0x7fff"),
            (0x3508_ffff, "ori $8, $8, 0xffff"),
            (0x3409_0011, "ori $9, $0, 0x0011"),
            (0x2109_0001, "addi $9, $8, 1"),
        ],
        stages: &[Stage {
            events: &[(Step(0), 3, RAN), (Step(0), 1, OVERFLOW)],
            left: &[
                (0, Register(9, 0x11)),
                (0, Pc(0x8000_0080)),
                (0, Cop(R::Epc, 0x8000_020c)),
                (0, Cop(R::Cause, 0x30)),
                (0, Cop(R::Status, 0)),
                (0, Cop(R::BadVaddr, 0)),
            ],
        }],
    },
    Run {
        name: "user-fetch",
        ram: 4_096,
        processors: 1,
        entry: ENTRY,
        base: ENTRY,
        program: &[
            (0x3408_003c, "ori $8, $0, 0x003c"),
            (0x4088_6000, "mtc0 $8, $12"),
            (0x4200_0010, "rfe"),
        ],
        stages: &[
            Stage {
                events: &[(Step(0), 3, RAN)],
                left: &[(0, Cop(R::Status, 0x3f))],
            },
            Stage {
                events: &[(Step(0), 1, ADDRESS_LOAD)],
                left: &[
                    (0, Cop(R::Epc, 0x8000_020c)),
                    (0, Cop(R::BadVaddr, 0x8000_020c)),
                    (0, Cop(R::Status, 0x3c)),
                    (0, Cop(R::Cause, 0x10)),
                    (0, Cop(R::EntryHi, 0)),
                    (0, Cop(R::Context, 0)),
                    (0, Pc(0x8000_0080)),
                ],
            },
        ],
    },
    Run {
        name: "rfe twice",
        ram: 4_096,
        processors: 1,
        entry: ENTRY,
        base: ENTRY,
        program: &[
            (0x3408_0010, "ori $8, $0, 0x0010"),
            (0x4088_6000, "mtc0 $8, $12"),
            (0x4200_0010, "rfe"),
            (0x4200_0010, "rfe"),
        ],
        stages: &[
            Stage {
                events: &[(Step(0), 2, RAN)],
                left: &[(0, Cop(R::Status, 0x10))],
            },
            Stage {
                events: &[(Step(0), 1, RAN)],
                left: &[(0, Cop(R::Status, 0x14))],
            },
            Stage {
                events: &[(Step(0), 1, RAN)],
                left: &[(0, Cop(R::Status, 0x15))],
            },
        ],
    },
    Run {
        name: "three traps, one in another",
        ram: 4_096,
        processors: 1,
        entry: 0x8000_0084,
        base: 0x8000_0080,
        program: &[
            (0x0000_000c, "syscall"),
            (0x3408_0001, "ori $8, $0, 0x0001"),
            (0x4088_6000, "mtc0 $8, $12"),
            (0x0000_000d, "break"),
        ],
        stages: &[
            Stage {
                events: &[(Step(0), 2, RAN)],
                left: &[(0, Cop(R::Status, 1))],
            },
            Stage {
                events: &[(Step(0), 1, BREAKPOINT)],
                left: &[
                    (0, Cop(R::Status, 4)),
                    (0, Cop(R::Epc, 0x8000_008c)),
                    (0, Cop(R::Cause, 0x24)),
                ],
            },
            Stage {
                events: &[(Step(0), 1, SYSCALL)],
                left: &[
                    (0, Cop(R::Status, 0x10)),
                    (0, Cop(R::Epc, 0x8000_0080)),
                    (0, Cop(R::Cause, 0x20)),
                ],
            },
            Stage {
                events: &[(Step(0), 1, SYSCALL)],
                left: &[(0, Cop(R::Status, 0))],
            },
        ],
    },
    Run {
        name: "a fetch past RAM in a delay slot",
        ram: 4_096,
        processors: 1,
        entry: 0x8000_0ffc,
        base: 0x8000_0ffc,
        program: &[(0x1000_ffff, "beq $0, $0, 0x80000ffc")],
        stages: &[Stage {
            events: &[(Step(0), 1, RAN), (Step(0), 1, BUS_FETCH)],
            left: &[
                (0, Cop(R::Epc, 0x8000_0ffc)),
                (0, Cop(R::Cause, 0x8000_0018)),
                (0, Pc(0x8000_0080)),
                (0, Slot(false)),
                (0, Cop(R::BadVaddr, 0)),
            ],
        }],
    },
    Run {
        name: "an interrupt in a delay slot",
        ram: 4_096,
        processors: 1,
        entry: ENTRY,
        base: ENTRY,
        program: &[
            (0x3408_8001, "ori $8, $0, 0x8001"),
            (0x4088_6000, "mtc0 $8, $12"),
            (0x3409_0002, "ori $9, $0, 0x0002"),
            (0x4089_5800, "mtc0 $9, $11"),
            (0x1000_0003, "beq $0, $0, 0x80000220"),
            (0x0000_0000, "nop"),
        ],
        stages: &[
            Stage {
                events: &[(Step(0), 5, RAN)],
                left: &[
                    (0, Cop(R::Count, 0)),
                    (0, Cop(R::Cause, 0x8000)),
                    (0, Slot(true)),
                ],
            },
            Stage {
                events: &[(Step(0), 1, INTERRUPT)],
                left: &[
                    (0, Cop(R::Epc, 0x8000_0210)),
                    (0, Cop(R::Cause, 0x8000_8000)),
                    (0, Cop(R::Status, 0x8004)),
                    (0, Pc(0x8000_0080)),
                    (0, Slot(false)),
                    (0, Cop(R::Count, 1)),
                ],
            },
        ],
    },
    Run {
        name: "software-interrupt",
        ram: 4_096,
        processors: 1,
        entry: ENTRY,
        base: ENTRY,
        program: &[
            (0x3408_0101, "ori $8, $0, 0x0101"),
            (0x4088_6000, "mtc0 $8, $12"),
            (0x3409_0100, "ori $9, $0, 0x0100"),
            (0x4089_6800, "mtc0 $9, $13"),
        ],
        stages: &[Stage {
            events: &[(Step(0), 4, RAN), (Step(0), 1, INTERRUPT)],
            left: &[
                (0, Cop(R::Epc, 0x8000_0210)),
                (0, Cop(R::Cause, 0x100)),
                (0, Cop(R::Status, 0x104)),
                (0, Pc(0x8000_0080)),
            ],
        }],
    },
    Run {
        name: "a trap to the vectors of BEV",
        ram: 4_096,
        processors: 1,
        entry: ENTRY,
        base: ENTRY,
        program: &[
            (0x3c08_0040, "lui $8, 0x0040"),
            (0x4088_6000, "mtc0 $8, $12"),
            (0x0000_000c, "syscall"),
        ],
        stages: &[
            Stage {
                events: &[(Step(0), 2, RAN), (Step(0), 1, BOOT_SYSCALL)],
                left: &[
                    (0, Pc(0xbfc0_0180)),
                    (0, Cop(R::Epc, 0x8000_0208)),
                    (0, Cop(R::Cause, 0x20)),
                    (0, Cop(R::Status, 0x0040_0000)),
                ],
            },
            Stage {
                events: &[(Step(0), 1, BOOT_FETCH)],
                left: &[
                    (0, Pc(0xbfc0_0180)),
                    (0, Cop(R::Epc, 0xbfc0_0180)),
                    (0, Cop(R::Cause, 0x18)),
                ],
            },
        ],
    },
    Run {
        name: "a miss to the vectors of BEV",
        ram: 4_096,
        processors: 1,
        entry: ENTRY,
        base: ENTRY,
        program: &[
            (0x3c08_0040, "lui $8, 0x0040"),
            (0x4088_6000, "mtc0 $8, $12"),
            (0x8c09_0000, "lw $9, 0($0)"),
        ],
        stages: &[Stage {
            events: &[(Step(0), 2, RAN), (Step(0), 1, BOOT_MISS)],
            left: &[
                (0, Pc(0xbfc0_0100)),
                (0, Cop(R::Epc, 0x8000_0208)),
                (0, Cop(R::Cause, 8)),
            ],
        }],
    },
];

/// An instruction at 80000218, with 80000000 in register 16, 7fffffff in 9 and 1 in 10.
static OUTSIDE: Run = Run {
    name: "outside a delay slot",
    ram: 4_096,
    processors: 1,
    entry: ENTRY,
    base: ENTRY,
    program: &[
        (0x3c10_8000, "lui $16, 0x8000"),
        (0x3c09_7fff, "lui $9, 0x7fff"),
        (0x3529_ffff, "ori $9, $9, 0xffff"),
        (0x340a_0001, "ori $10, $0, 0x0001"),
        (0x4080_6000, "mtc0 $0, $12"),
        (0x0000_0000, "nop"),
        (0x0000_0000, "nop"),
    ],
    stages: &[Stage {
        events: &[(Step(0), 6, RAN)],
        left: &[(0, Slot(false))],
    }],
};

/// The same instruction in the delay slot of a branch at 80000214.
static INSIDE: Run = Run {
    name: "in a delay slot",
    ram: 4_096,
    processors: 1,
    entry: ENTRY,
    base: ENTRY,
    program: &[
        (0x3c10_8000, "lui $16, 0x8000"),
        (0x3c09_7fff, "lui $9, 0x7fff"),
        (0x3529_ffff, "ori $9, $9, 0xffff"),
        (0x340a_0001, "ori $10, $0, 0x0001"),
        (0x4080_6000, "mtc0 $0, $12"),
        (0x1000_0006, "beq $0, $0, 0x80000230"),
        (0x0000_0000, "nop"),
    ],
    stages: &[Stage {
        events: &[(Step(0), 6, RAN)],
        left: &[(0, Slot(true))],
    }],
};

/// Instructions that trap: the text, the word, what the Step answers, Cause without BD, and
/// BadVAddr.
static CODES: [(&str, u32, Answer, u32, u32); 25] = [
    ("add $8, $9, $10", 0x012a_4020, OVERFLOW, 0x30, 0),
    ("addi $8, $9, 1", 0x2128_0001, OVERFLOW, 0x30, 0),
    ("sub $8, $16, $10", 0x020a_4022, OVERFLOW, 0x30, 0),
    ("syscall", 0x0000_000c, SYSCALL, 0x20, 0),
    ("break", 0x0000_000d, BREAKPOINT, 0x24, 0),
    (".word 0xffffffff", 0xffff_ffff, RESERVED, 0x28, 0),
    (".word 0x44000000", 0x4400_0000, UNUSABLE, 0x1000_002c, 0),
    (".word 0x48000000", 0x4800_0000, UNUSABLE, 0x2000_002c, 0),
    (".word 0x4c000000", 0x4c00_0000, UNUSABLE, 0x3000_002c, 0),
    (".word 0xc4000000", 0xc400_0000, UNUSABLE, 0x1000_002c, 0),
    (".word 0xc8000000", 0xc800_0000, UNUSABLE, 0x2000_002c, 0),
    (".word 0xcc000000", 0xcc00_0000, UNUSABLE, 0x3000_002c, 0),
    (".word 0xe4000000", 0xe400_0000, UNUSABLE, 0x1000_002c, 0),
    (".word 0xe8000000", 0xe800_0000, UNUSABLE, 0x2000_002c, 0),
    (".word 0xec000000", 0xec00_0000, UNUSABLE, 0x3000_002c, 0),
    (
        "lw $8, 1($16)",
        0x8e08_0001,
        ADDRESS_LOAD,
        0x10,
        0x8000_0001,
    ),
    (
        "lh $8, 1($16)",
        0x8608_0001,
        ADDRESS_LOAD,
        0x10,
        0x8000_0001,
    ),
    (
        "ll $8, 2($16)",
        0xc208_0002,
        ADDRESS_LOAD,
        0x10,
        0x8000_0002,
    ),
    (
        "sw $8, 2($16)",
        0xae08_0002,
        ADDRESS_STORE,
        0x14,
        0x8000_0002,
    ),
    (
        "sh $8, 3($16)",
        0xa608_0003,
        ADDRESS_STORE,
        0x14,
        0x8000_0003,
    ),
    (
        "sc $8, 1($16)",
        0xe208_0001,
        ADDRESS_STORE,
        0x14,
        0x8000_0001,
    ),
    ("lw $8, 4096($16)", 0x8e08_1000, BUS_DATA, 0x1c, 0),
    ("sb $8, 4096($16)", 0xa208_1000, BUS_DATA, 0x1c, 0),
    ("lw $8, 3($10)", 0x8d48_0003, LOAD_MISS, 8, 4),
    ("sw $8, 3($10)", 0xad48_0003, STORE_MISS, 0xc, 4),
];

#[test]
fn traps(rt: HostRuntime) -> Result<(), Fail> {
    check_runs(&rt, &TRAPS)
}

#[test]
fn codes_in_and_out_of_a_slot(rt: HostRuntime) -> Result<(), Fail> {
    for &(text, word, answer, cause, address) in &CODES {
        for (run, epc, bd) in [
            (&OUTSIDE, 0x8000_0218, 0),
            (&INSIDE, 0x8000_0214, 0x8000_0000),
        ] {
            let left = [
                (0, Cop(R::Epc, epc)),
                (0, Cop(R::Cause, bd | cause)),
                (0, Cop(R::BadVaddr, address)),
                (0, Cop(R::Status, 0)),
                (0, Slot(false)),
                (0, Register(8, 0)),
            ];
            check_with(&rt, run, &[(6, word)], text, &[(Step(0), 1, answer)], &left)?;
        }
    }
    Ok(())
}
