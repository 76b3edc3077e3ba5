//! Translation: rows, misses, and what user mode may do.

use super::listing::Left::{Cop, Memory, Pc, Register, Slot, TlbRow};
use super::listing::{Run, Stage, check_runs, check_with};
use super::same;
use m161_machine::Event::Step;
use m161_machine::Register as R;
use m161_test_support::outcomes::{
    ADDRESS_LOAD, ADDRESS_STORE, Answer, BUS_DATA, ENTRY, LOAD_MISS, MODIFIED, RAN, RESERVED,
    STORE_MISS, SYSCALL, TLB_LOAD, TLB_STORE, UNUSABLE,
};
use m161_tlb::{Row, Tlb};
use m161_tlb_scan::Scan;
use std::test::Fail;

static MISSES: [Run; 8] = [
    Run {
        name: "miss-in-delay-slot",
        ram: 4_096,
        processors: 1,
        entry: 0x8000_02f8,
        base: 0x8000_02f8,
        program: &[
            (0x3c08_0040, "lui $8, 0x0040"),
            (0x3508_1234, "ori $8, $8, 0x1234"),
            (0x1000_0003, "beq $0, $0, 0x80000310"),
            (0x8d09_0000, "lw $9, 0($8)"),
        ],
        stages: &[Stage {
            events: &[(Step(0), 3, RAN), (Step(0), 1, LOAD_MISS)],
            left: &[
                (0, Cop(R::Epc, 0x8000_0300)),
                (0, Cop(R::Cause, 0x8000_0008)),
                (0, Pc(0x8000_0000)),
                (0, Slot(false)),
                (0, Cop(R::BadVaddr, 0x0040_1234)),
                (0, Cop(R::EntryHi, 0x0040_1000)),
                (0, Cop(R::Context, 0x1004)),
            ],
        }],
    },
    Run {
        name: "user-miss",
        ram: 4_096,
        processors: 1,
        entry: ENTRY,
        base: ENTRY,
        program: &[
            (0x3c08_0040, "lui $8, 0x0040"),
            (0x3508_0140, "ori $8, $8, 0x0140"),
            (0x4088_5000, "mtc0 $8, $10"),
            (0x3409_0200, "ori $9, $0, 0x0200"),
            (0x4089_1000, "mtc0 $9, $2"),
            (0x4200_0002, "tlbwi"),
            (0x3c0a_0040, "lui $10, 0x0040"),
            (0x354a_1234, "ori $10, $10, 0x1234"),
            (0x340b_0008, "ori $11, $0, 0x0008"),
            (0x408b_6000, "mtc0 $11, $12"),
            (0x3c0c_0040, "lui $12, 0x0040"),
            (0x358c_0238, "ori $12, $12, 0x0238"),
            (0x0180_0008, "jr $12"),
            (0x4200_0010, "rfe"),
            (0x8d4d_0000, "lw $13, 0($10)"),
        ],
        stages: &[
            Stage {
                events: &[(Step(0), 14, RAN)],
                left: &[
                    (0, Pc(0x0040_0238)),
                    (0, Cop(R::Status, 2)),
                    (0, TlbRow(0, 0x0040_0140, 0x0200)),
                ],
            },
            Stage {
                events: &[(Step(0), 1, LOAD_MISS)],
                left: &[
                    (0, Cop(R::BadVaddr, 0x0040_1234)),
                    (0, Cop(R::EntryHi, 0x0040_1140)),
                    (0, Cop(R::Context, 0x1004)),
                    (0, Pc(0x8000_0000)),
                    (0, Cop(R::Epc, 0x0040_0238)),
                    (0, Cop(R::Cause, 8)),
                    (0, Cop(R::Status, 8)),
                    (0, Register(13, 0)),
                ],
            },
        ],
    },
    Run {
        name: "invalid-and-modified: a load with V 0",
        ram: 4_096,
        processors: 1,
        entry: ENTRY,
        base: ENTRY,
        program: &[
            (0x3c08_0040, "lui $8, 0x0040"),
            (0x3508_1000, "ori $8, $8, 0x1000"),
            (0x4088_5000, "mtc0 $8, $10"),
            (0x4080_1000, "mtc0 $0, $2"),
            (0x4200_0002, "tlbwi"),
            (0x8d09_0234, "lw $9, 564($8)"),
        ],
        stages: &[Stage {
            events: &[(Step(0), 5, RAN), (Step(0), 1, TLB_LOAD)],
            left: &[
                (0, Cop(R::BadVaddr, 0x0040_1234)),
                (0, Cop(R::EntryHi, 0x0040_1000)),
                (0, Cop(R::Context, 0x1004)),
                (0, Pc(0x8000_0080)),
                (0, Cop(R::Epc, 0x8000_0214)),
                (0, Cop(R::Cause, 8)),
            ],
        }],
    },
    Run {
        name: "invalid-and-modified: a store with V 0",
        ram: 4_096,
        processors: 1,
        entry: ENTRY,
        base: ENTRY,
        program: &[
            (0x3c08_0040, "lui $8, 0x0040"),
            (0x3508_1000, "ori $8, $8, 0x1000"),
            (0x4088_5000, "mtc0 $8, $10"),
            (0x4080_1000, "mtc0 $0, $2"),
            (0x4200_0002, "tlbwi"),
            (0xad09_0234, "sw $9, 564($8)"),
        ],
        stages: &[Stage {
            events: &[(Step(0), 5, RAN), (Step(0), 1, TLB_STORE)],
            left: &[
                (0, Cop(R::BadVaddr, 0x0040_1234)),
                (0, Cop(R::EntryHi, 0x0040_1000)),
                (0, Cop(R::Context, 0x1004)),
                (0, Pc(0x8000_0080)),
                (0, Cop(R::Epc, 0x8000_0214)),
                (0, Cop(R::Cause, 0xc)),
            ],
        }],
    },
    Run {
        name: "invalid-and-modified: a store with V 1, D 0",
        ram: 4_096,
        processors: 1,
        entry: ENTRY,
        base: ENTRY,
        program: &[
            (0x3c08_0040, "lui $8, 0x0040"),
            (0x3508_1000, "ori $8, $8, 0x1000"),
            (0x4088_5000, "mtc0 $8, $10"),
            (0x3409_0200, "ori $9, $0, 0x0200"),
            (0x4089_1000, "mtc0 $9, $2"),
            (0x4200_0002, "tlbwi"),
            (0xad09_0234, "sw $9, 564($8)"),
        ],
        stages: &[Stage {
            events: &[(Step(0), 6, RAN), (Step(0), 1, MODIFIED)],
            left: &[
                (0, Cop(R::BadVaddr, 0x0040_1234)),
                (0, Cop(R::EntryHi, 0x0040_1000)),
                (0, Cop(R::Context, 0x1004)),
                (0, Pc(0x8000_0080)),
                (0, Cop(R::Epc, 0x8000_0218)),
                (0, Cop(R::Cause, 4)),
                (0, Memory(0x234, 0)),
            ],
        }],
    },
    Run {
        name: "a store with V 1, D 1",
        ram: 4_096,
        processors: 1,
        entry: ENTRY,
        base: ENTRY,
        program: &[
            (0x3c08_0040, "lui $8, 0x0040"),
            (0x3508_1000, "ori $8, $8, 0x1000"),
            (0x4088_5000, "mtc0 $8, $10"),
            (0x3409_0600, "ori $9, $0, 0x0600"),
            (0x4089_1000, "mtc0 $9, $2"),
            (0x4200_0002, "tlbwi"),
            (0xad09_0234, "sw $9, 564($8)"),
        ],
        stages: &[Stage {
            events: &[(Step(0), 7, RAN)],
            left: &[(0, Memory(0x234, 0x0600)), (0, Cop(R::BadVaddr, 0))],
        }],
    },
    Run {
        name: "a store with V 0, D 1",
        ram: 4_096,
        processors: 1,
        entry: ENTRY,
        base: ENTRY,
        program: &[
            (0x3c08_0040, "lui $8, 0x0040"),
            (0x3508_1000, "ori $8, $8, 0x1000"),
            (0x4088_5000, "mtc0 $8, $10"),
            (0x3409_0400, "ori $9, $0, 0x0400"),
            (0x4089_1000, "mtc0 $9, $2"),
            (0x4200_0002, "tlbwi"),
            (0xad09_0234, "sw $9, 564($8)"),
        ],
        stages: &[Stage {
            events: &[(Step(0), 6, RAN), (Step(0), 1, TLB_STORE)],
            left: &[
                (0, Cop(R::BadVaddr, 0x0040_1234)),
                (0, Cop(R::EntryHi, 0x0040_1000)),
                (0, Cop(R::Context, 0x1004)),
                (0, Pc(0x8000_0080)),
                (0, Cop(R::Epc, 0x8000_0218)),
                (0, Cop(R::Cause, 0xc)),
            ],
        }],
    },
    Run {
        name: "a modified page in a delay slot",
        ram: 4_096,
        processors: 1,
        entry: ENTRY,
        base: ENTRY,
        program: &[
            (0x3c08_0040, "lui $8, 0x0040"),
            (0x3508_1000, "ori $8, $8, 0x1000"),
            (0x4088_5000, "mtc0 $8, $10"),
            (0x3409_0200, "ori $9, $0, 0x0200"),
            (0x4089_1000, "mtc0 $9, $2"),
            (0x4200_0002, "tlbwi"),
            (0x1000_0005, "beq $0, $0, 0x80000230"),
            (0xad09_0234, "sw $9, 564($8)"),
        ],
        stages: &[Stage {
            events: &[(Step(0), 7, RAN), (Step(0), 1, MODIFIED)],
            left: &[
                (0, Cop(R::BadVaddr, 0x0040_1234)),
                (0, Cop(R::EntryHi, 0x0040_1000)),
                (0, Cop(R::Context, 0x1004)),
                (0, Pc(0x8000_0080)),
                (0, Cop(R::Epc, 0x8000_0218)),
                (0, Cop(R::Cause, 0x8000_0004)),
            ],
        }],
    },
];

static PAGES: [Run; 7] = [
    Run {
        name: "invalid-and-modified: a kernel load without a row",
        ram: 4_096,
        processors: 1,
        entry: ENTRY,
        base: ENTRY,
        program: &[
            (0x3c08_c000, "lui $8, 0xc000"),
            (0x8d09_0000, "lw $9, 0($8)"),
        ],
        stages: &[Stage {
            events: &[(Step(0), 1, RAN), (Step(0), 1, TLB_LOAD)],
            left: &[
                (0, Cop(R::BadVaddr, 0xc000_0000)),
                (0, Cop(R::EntryHi, 0xc000_0000)),
                (0, Cop(R::Context, 0x0010_0000)),
                (0, Pc(0x8000_0080)),
                (0, Cop(R::Epc, 0x8000_0204)),
                (0, Cop(R::Cause, 8)),
            ],
        }],
    },
    Run {
        name: "a kernel store without a row",
        ram: 4_096,
        processors: 1,
        entry: ENTRY,
        base: ENTRY,
        program: &[
            (0x3c08_c000, "lui $8, 0xc000"),
            (0xad09_0000, "sw $9, 0($8)"),
        ],
        stages: &[Stage {
            events: &[(Step(0), 1, RAN), (Step(0), 1, TLB_STORE)],
            left: &[
                (0, Cop(R::BadVaddr, 0xc000_0000)),
                (0, Cop(R::EntryHi, 0xc000_0000)),
                (0, Cop(R::Context, 0x0010_0000)),
                (0, Pc(0x8000_0080)),
                (0, Cop(R::Epc, 0x8000_0204)),
                (0, Cop(R::Cause, 0xc)),
            ],
        }],
    },
    Run {
        name: "a frame past RAM",
        ram: 4_096,
        processors: 1,
        entry: ENTRY,
        base: ENTRY,
        program: &[
            (0x3c08_0040, "lui $8, 0x0040"),
            (0x3508_1000, "ori $8, $8, 0x1000"),
            (0x4088_5000, "mtc0 $8, $10"),
            (0x3409_1600, "ori $9, $0, 0x1600"),
            (0x4089_1000, "mtc0 $9, $2"),
            (0x4200_0002, "tlbwi"),
            (0x8d09_0000, "lw $9, 0($8)"),
        ],
        stages: &[Stage {
            events: &[(Step(0), 6, RAN), (Step(0), 1, BUS_DATA)],
            left: &[
                (0, Cop(R::Cause, 0x1c)),
                (0, Cop(R::BadVaddr, 0)),
                (0, Cop(R::Epc, 0x8000_0218)),
            ],
        }],
    },
    Run {
        name: "identifier-and-global: private",
        ram: 4_096,
        processors: 1,
        entry: ENTRY,
        base: ENTRY,
        program: &[
            (0x3c08_0040, "lui $8, 0x0040"),
            (0x3508_1140, "ori $8, $8, 0x1140"),
            (0x4088_5000, "mtc0 $8, $10"),
            (0x3409_0200, "ori $9, $0, 0x0200"),
            (0x4089_1000, "mtc0 $9, $2"),
            (0x4200_0002, "tlbwi"),
            (0x340a_0180, "ori $10, $0, 0x0180"),
            (0x408a_5000, "mtc0 $10, $10"),
            (0x3c0b_0040, "lui $11, 0x0040"),
            (0x356b_1200, "ori $11, $11, 0x1200"),
            (0x8d6c_0000, "lw $12, 0($11)"),
        ],
        stages: &[Stage {
            events: &[(Step(0), 10, RAN), (Step(0), 1, LOAD_MISS)],
            left: &[
                (0, Cop(R::EntryHi, 0x0040_1180)),
                (0, Cop(R::BadVaddr, 0x0040_1200)),
                (0, Register(12, 0)),
            ],
        }],
    },
    Run {
        name: "identifier-and-global: global",
        ram: 4_096,
        processors: 1,
        entry: ENTRY,
        base: ENTRY,
        program: &[
            (0x3c08_0040, "lui $8, 0x0040"),
            (0x3508_1140, "ori $8, $8, 0x1140"),
            (0x4088_5000, "mtc0 $8, $10"),
            (0x3409_0300, "ori $9, $0, 0x0300"),
            (0x4089_1000, "mtc0 $9, $2"),
            (0x4200_0002, "tlbwi"),
            (0x340a_0180, "ori $10, $0, 0x0180"),
            (0x408a_5000, "mtc0 $10, $10"),
            (0x3c0b_0040, "lui $11, 0x0040"),
            (0x356b_1200, "ori $11, $11, 0x1200"),
            (0x8d6c_0000, "lw $12, 0($11)"),
        ],
        stages: &[Stage {
            events: &[(Step(0), 11, RAN)],
            left: &[(0, Register(12, 0x3c08_0040)), (0, Cop(R::EntryHi, 0x180))],
        }],
    },
    Run {
        name: "lwl at a missing page",
        ram: 4_096,
        processors: 1,
        entry: ENTRY,
        base: ENTRY,
        program: &[
            (0x3c08_0040, "lui $8, 0x0040"),
            (0x3508_1235, "ori $8, $8, 0x1235"),
            (0x8909_0000, "lwl $9, 0($8)"),
        ],
        stages: &[Stage {
            events: &[(Step(0), 2, RAN), (Step(0), 1, LOAD_MISS)],
            left: &[
                (0, Cop(R::BadVaddr, 0x0040_1235)),
                (0, Cop(R::EntryHi, 0x0040_1000)),
                (0, Cop(R::Context, 0x1004)),
            ],
        }],
    },
    Run {
        name: "swr at a missing page",
        ram: 4_096,
        processors: 1,
        entry: ENTRY,
        base: ENTRY,
        program: &[
            (0x3c08_0040, "lui $8, 0x0040"),
            (0x3508_1235, "ori $8, $8, 0x1235"),
            (0xb909_0002, "swr $9, 2($8)"),
        ],
        stages: &[Stage {
            events: &[(Step(0), 2, RAN), (Step(0), 1, STORE_MISS)],
            left: &[
                (0, Cop(R::BadVaddr, 0x0040_1237)),
                (0, Cop(R::EntryHi, 0x0040_1000)),
                (0, Cop(R::Context, 0x1004)),
            ],
        }],
    },
];

static ROWS: [Run; 4] = [
    Run {
        name: "Context keeps PTEBase",
        ram: 4_096,
        processors: 1,
        entry: ENTRY,
        base: ENTRY,
        program: &[
            (0x3c08_abcd, "lui $8, 0xabcd"),
            (0x4088_2000, "mtc0 $8, $4"),
            (0x8c09_2000, "lw $9, 8192($0)"),
        ],
        stages: &[
            Stage {
                events: &[(Step(0), 2, RAN)],
                left: &[(0, Cop(R::Context, 0xabc0_0000))],
            },
            Stage {
                events: &[(Step(0), 1, LOAD_MISS)],
                left: &[
                    (0, Cop(R::Context, 0xabc0_0008)),
                    (0, Cop(R::BadVaddr, 0x2000)),
                    (0, Cop(R::EntryHi, 0x2000)),
                ],
            },
        ],
    },
    Run {
        name: "least-row",
        ram: 4_096,
        processors: 1,
        entry: ENTRY,
        base: ENTRY,
        program: &[
            (0x3408_0500, "ori $8, $0, 0x0500"),
            (0x4088_0000, "mtc0 $8, $0"),
            (0x3c09_0040, "lui $9, 0x0040"),
            (0x3529_1140, "ori $9, $9, 0x1140"),
            (0x4089_5000, "mtc0 $9, $10"),
            (0x4080_1000, "mtc0 $0, $2"),
            (0x4200_0002, "tlbwi"),
            (0x3408_0300, "ori $8, $0, 0x0300"),
            (0x4088_0000, "mtc0 $8, $0"),
            (0x3c0a_0040, "lui $10, 0x0040"),
            (0x354a_1240, "ori $10, $10, 0x1240"),
            (0x408a_5000, "mtc0 $10, $10"),
            (0x340b_0100, "ori $11, $0, 0x0100"),
            (0x408b_1000, "mtc0 $11, $2"),
            (0x4200_0002, "tlbwi"),
            (0x4089_5000, "mtc0 $9, $10"),
            (0x4200_0008, "tlbp"),
            (0x400c_0000, "mfc0 $12, $0"),
            (0x3c0a_0050, "lui $10, 0x0050"),
            (0x354a_0240, "ori $10, $10, 0x0240"),
            (0x408a_5000, "mtc0 $10, $10"),
            (0x4080_1000, "mtc0 $0, $2"),
            (0x4200_0002, "tlbwi"),
            (0x4089_5000, "mtc0 $9, $10"),
            (0x4200_0008, "tlbp"),
            (0x400d_0000, "mfc0 $13, $0"),
            (0x3c0e_0040, "lui $14, 0x0040"),
            (0x35ce_1180, "ori $14, $14, 0x1180"),
            (0x408e_5000, "mtc0 $14, $10"),
            (0x4200_0008, "tlbp"),
        ],
        stages: &[
            Stage {
                events: &[(Step(0), 15, RAN)],
                left: &[
                    (0, TlbRow(5, 0x0040_1140, 0)),
                    (0, TlbRow(3, 0x0040_1240, 0x0100)),
                ],
            },
            Stage {
                events: &[(Step(0), 3, RAN)],
                left: &[(0, Cop(R::Index, 0x300)), (0, Register(12, 0x300))],
            },
            Stage {
                events: &[(Step(0), 8, RAN)],
                left: &[
                    (0, Register(13, 0x500)),
                    (0, TlbRow(3, 0x0050_0240, 0)),
                    (0, TlbRow(4, 0x8000_4000, 0)),
                ],
            },
            Stage {
                events: &[(Step(0), 4, RAN)],
                left: &[(0, Cop(R::Index, 0x8000_0000))],
            },
        ],
    },
    Run {
        name: "tlbwr and tlbr",
        ram: 4_096,
        processors: 1,
        entry: ENTRY,
        base: ENTRY,
        program: &[
            (0x3c08_dead, "lui $8, 0xdead"),
            (0x3508_bfc0, "ori $8, $8, 0xbfc0"),
            (0x4088_5000, "mtc0 $8, $10"),
            (0x3c09_1234, "lui $9, 0x1234"),
            (0x3529_5f00, "ori $9, $9, 0x5f00"),
            (0x4089_1000, "mtc0 $9, $2"),
            (0x4200_0006, "tlbwr"),
            (0x4080_5000, "mtc0 $0, $10"),
            (0x4080_1000, "mtc0 $0, $2"),
            (0x340a_3900, "ori $10, $0, 0x3900"),
            (0x408a_0000, "mtc0 $10, $0"),
            (0x4200_0001, "tlbr"),
        ],
        stages: &[
            Stage {
                events: &[(Step(0), 7, RAN)],
                left: &[
                    (0, TlbRow(57, 0xdead_bfc0, 0x1234_5f00)),
                    (0, TlbRow(56, 0x8003_8000, 0)),
                    (0, TlbRow(58, 0x8003_a000, 0)),
                ],
            },
            Stage {
                events: &[(Step(0), 4, RAN)],
                left: &[(0, Cop(R::EntryHi, 0)), (0, Cop(R::EntryLo, 0))],
            },
            Stage {
                events: &[(Step(0), 1, RAN)],
                left: &[
                    (0, Cop(R::EntryHi, 0xdead_bfc0)),
                    (0, Cop(R::EntryLo, 0x1234_5f00)),
                ],
            },
        ],
    },
    Run {
        name: "rows at the start",
        ram: 4_096,
        processors: 1,
        entry: ENTRY,
        base: ENTRY,
        program: &[(0x0000_0000, "nop")],
        stages: &[Stage {
            events: &[],
            left: &[
                (0, TlbRow(0, 0x8000_0000, 0)),
                (0, TlbRow(1, 0x8000_1000, 0)),
                (0, TlbRow(31, 0x8001_f000, 0)),
                (0, TlbRow(63, 0x8003_f000, 0)),
                (0, Cop(R::Random, 0x3f00)),
                (0, Cop(R::Prid, 0xa1)),
                (0, Cop(R::Status, 0)),
            ],
        }],
    },
];

/// An instruction at 00400230 in user mode, with 00400000 in register 8 and 80000000 in 14.
static USER: Run = Run {
    name: "user mode",
    ram: 4_096,
    processors: 1,
    entry: ENTRY,
    base: ENTRY,
    program: &[
        (0x3c08_0040, "lui $8, 0x0040"),
        (0x4088_5000, "mtc0 $8, $10"),
        (0x3409_0200, "ori $9, $0, 0x0200"),
        (0x4089_1000, "mtc0 $9, $2"),
        (0x4200_0002, "tlbwi"),
        (0x3c0e_8000, "lui $14, 0x8000"),
        (0x3c0b_0000, "lui $11, 0x0000"),
        (0x356b_0008, "ori $11, $11, 0x0008"),
        (0x408b_6000, "mtc0 $11, $12"),
        (0x350c_0230, "ori $12, $8, 0x0230"),
        (0x0180_0008, "jr $12"),
        (0x4200_0010, "rfe"),
        (0x0000_0000, "nop"),
    ],
    stages: &[Stage {
        events: &[(Step(0), 12, RAN)],
        left: &[(0, Pc(0x0040_0230)), (0, Cop(R::Status, 2))],
    }],
};

/// The same where user mode may use coprocessor 0.
static USER_WITH_COPROCESSOR: Run = Run {
    name: "user mode with coprocessor 0",
    ram: 4_096,
    processors: 1,
    entry: ENTRY,
    base: ENTRY,
    program: &[
        (0x3c08_0040, "lui $8, 0x0040"),
        (0x4088_5000, "mtc0 $8, $10"),
        (0x3409_0200, "ori $9, $0, 0x0200"),
        (0x4089_1000, "mtc0 $9, $2"),
        (0x4200_0002, "tlbwi"),
        (0x3c0e_8000, "lui $14, 0x8000"),
        (0x3c0b_1000, "lui $11, 0x1000"),
        (0x356b_0008, "ori $11, $11, 0x0008"),
        (0x408b_6000, "mtc0 $11, $12"),
        (0x350c_0230, "ori $12, $8, 0x0230"),
        (0x0180_0008, "jr $12"),
        (0x4200_0010, "rfe"),
        (0x0000_0000, "nop"),
    ],
    stages: &[Stage {
        events: &[(Step(0), 12, RAN)],
        left: &[(0, Pc(0x0040_0230)), (0, Cop(R::Status, 0x1000_0002))],
    }],
};

/// Instructions in user mode: the text, the word, what the Step answers, and Cause.
static IN_USER_MODE: [(&str, u32, Answer, u32); 18] = [
    ("mfc0 $13, $12", 0x400d_6000, UNUSABLE, 0x2c),
    ("mtc0 $0, $12", 0x4080_6000, UNUSABLE, 0x2c),
    ("tlbr", 0x4200_0001, UNUSABLE, 0x2c),
    ("tlbwi", 0x4200_0002, UNUSABLE, 0x2c),
    ("tlbwr", 0x4200_0006, UNUSABLE, 0x2c),
    ("tlbp", 0x4200_0008, UNUSABLE, 0x2c),
    ("rfe", 0x4200_0010, UNUSABLE, 0x2c),
    ("wait", 0x4200_0020, UNUSABLE, 0x2c),
    (".word 0x42000003", 0x4200_0003, UNUSABLE, 0x2c),
    (".word 0x40400000", 0x4040_0000, UNUSABLE, 0x2c),
    (".word 0x44000000", 0x4400_0000, UNUSABLE, 0x1000_002c),
    (".word 0xffffffff", 0xffff_ffff, RESERVED, 0x28),
    ("lw $13, 0($14)", 0x8dcd_0000, ADDRESS_LOAD, 0x10),
    ("lw $13, 0($8)", 0x8d0d_0000, RAN, 0),
    ("sw $13, 0($14)", 0xadcd_0000, ADDRESS_STORE, 0x14),
    ("swl $13, 1($14)", 0xa9cd_0001, ADDRESS_STORE, 0x14),
    ("sw $13, 0($8)", 0xad0d_0000, MODIFIED, 4),
    ("syscall", 0x0000_000c, SYSCALL, 0x20),
];

/// The same with coprocessor 0.
static WITH_COPROCESSOR: [(&str, u32, Answer, u32); 10] = [
    ("mfc0 $13, $12", 0x400d_6000, RAN, 0),
    ("mtc0 $0, $14", 0x4080_7000, RAN, 0),
    ("tlbp", 0x4200_0008, RAN, 0),
    ("tlbr", 0x4200_0001, RAN, 0),
    ("rfe", 0x4200_0010, RAN, 0),
    ("wait", 0x4200_0020, RAN, 0),
    (".word 0x42000003", 0x4200_0003, RESERVED, 0x28),
    (".word 0x40400000", 0x4040_0000, RESERVED, 0x28),
    (".word 0x44000000", 0x4400_0000, UNUSABLE, 0x1000_002c),
    ("lw $13, 0($14)", 0x8dcd_0000, ADDRESS_LOAD, 0x10),
];

#[test]
fn misses(rt: HostRuntime) -> Result<(), Fail> {
    check_runs(&rt, &MISSES)
}

#[test]
fn pages(rt: HostRuntime) -> Result<(), Fail> {
    check_runs(&rt, &PAGES)
}

#[test]
fn rows(rt: HostRuntime) -> Result<(), Fail> {
    check_runs(&rt, &ROWS)
}

#[test]
fn user_mode(rt: HostRuntime) -> Result<(), Fail> {
    for &(text, word, answer, cause) in &IN_USER_MODE {
        let left = [(0, Cop(R::Cause, cause))];
        check_with(
            &rt,
            &USER,
            &[(12, word)],
            text,
            &[(Step(0), 1, answer)],
            &left,
        )?;
    }
    Ok(())
}

#[test]
fn user_mode_with_coprocessor(rt: HostRuntime) -> Result<(), Fail> {
    for &(text, word, answer, cause) in &WITH_COPROCESSOR {
        let left = [(0, Cop(R::Cause, cause))];
        let events = [(Step(0), 1, answer)];
        check_with(
            &rt,
            &USER_WITH_COPROCESSOR,
            &[(12, word)],
            text,
            &events,
            &left,
        )?;
    }
    Ok(())
}

/// A row of frame 0 whose other flags are clear.
fn row(page: u32, id: u8, g: bool) -> Row {
    Row::from_words(page << 12 | u32::from(id) << 6, if g { 0x100 } else { 0 })
}

#[test]
fn least_row(rt: HostRuntime) {
    let mut scan = Scan::empty();
    scan.write(5, row(0x401, 5, false));
    scan.write(3, row(0x401, 9, true));
    same(
        &rt,
        (scan.find(0x401, 5), scan.find(0x401, 6)),
        (Some(3), Some(3)),
    );
    same(
        &rt,
        (scan.read(3), scan.read(5)),
        (row(0x401, 9, true), row(0x401, 5, false)),
    );
    scan.write(3, row(0x500, 9, false));
    same(
        &rt,
        (scan.find(0x401, 5), scan.find(0x401, 6)),
        (Some(5), None),
    );
    same(
        &rt,
        (scan.find(0x80004, 0), scan.find(0x80003, 0)),
        (Some(4), None),
    );
}
