//! Fetches of delay slots that trap, at the end of a page that a row maps.
//!
//! Each program maps the page of its last word, a branch to itself, and jumps there by the mapped
//! address; the branch's slot is the first word of the next page.

use super::listing::Left::{Cop, Pc, Register, Slot};
use super::listing::{Run, Stage, check_runs};
use m161_machine::Event::Step;
use m161_machine::Register as R;
use m161_test_support::outcomes::{ADDRESS_LOAD, ENTRY, LOAD_MISS, RAN, TLB_LOAD};
use std::test::Fail;

static FETCHES: [Run; 5] = [
    Run {
        name: "a slot without a row",
        ram: 4_096,
        processors: 1,
        entry: 0x8000_0fdc,
        base: 0x8000_0fdc,
        program: &[
            (0x3c08_0040, "lui $8, 0x0040"),
            (0x4088_5000, "mtc0 $8, $10"),
            (0x3409_0700, "ori $9, $0, 0x0700"),
            (0x4089_1000, "mtc0 $9, $2"),
            (0x4200_0002, "tlbwi"),
            (0x350a_0ffc, "ori $10, $8, 0x0ffc"),
            (0x0140_0008, "jr $10"),
            (0x0000_0000, "nop"),
            (0x1000_ffff, "beq $0, $0, 0x00400ffc"),
        ],
        stages: &[
            Stage {
                events: &[(Step(0), 9, RAN)],
                left: &[(0, Pc(0x0040_1000)), (0, Slot(true))],
            },
            Stage {
                events: &[(Step(0), 1, LOAD_MISS)],
                left: &[
                    (0, Cop(R::Epc, 0x0040_0ffc)),
                    (0, Cop(R::Cause, 0x8000_0008)),
                    (0, Cop(R::BadVaddr, 0x0040_1000)),
                    (0, Cop(R::EntryHi, 0x0040_1000)),
                    (0, Cop(R::Context, 0x1004)),
                    (0, Pc(0x8000_0000)),
                    (0, Slot(false)),
                ],
            },
        ],
    },
    Run {
        name: "a slot with an invalid row",
        ram: 4_096,
        processors: 1,
        entry: 0x8000_0fc4,
        base: 0x8000_0fc4,
        program: &[
            (0x3c08_0040, "lui $8, 0x0040"),
            (0x4088_5000, "mtc0 $8, $10"),
            (0x3409_0700, "ori $9, $0, 0x0700"),
            (0x4089_1000, "mtc0 $9, $2"),
            (0x4200_0002, "tlbwi"),
            (0x350b_1000, "ori $11, $8, 0x1000"),
            (0x408b_5000, "mtc0 $11, $10"),
            (0x4080_1000, "mtc0 $0, $2"),
            (0x340c_0100, "ori $12, $0, 0x0100"),
            (0x408c_0000, "mtc0 $12, $0"),
            (0x4200_0002, "tlbwi"),
            (0x350a_0ffc, "ori $10, $8, 0x0ffc"),
            (0x0140_0008, "jr $10"),
            (0x0000_0000, "nop"),
            (0x1000_ffff, "beq $0, $0, 0x00400ffc"),
        ],
        stages: &[Stage {
            events: &[(Step(0), 15, RAN), (Step(0), 1, TLB_LOAD)],
            left: &[
                (0, Cop(R::Epc, 0x0040_0ffc)),
                (0, Cop(R::Cause, 0x8000_0008)),
                (0, Cop(R::BadVaddr, 0x0040_1000)),
                (0, Cop(R::EntryHi, 0x0040_1000)),
                (0, Cop(R::Context, 0x1004)),
                (0, Pc(0x8000_0080)),
                (0, Slot(false)),
            ],
        }],
    },
    Run {
        name: "a slot in kseg0 in user mode",
        ram: 4_096,
        processors: 1,
        entry: 0x8000_0fd0,
        base: 0x8000_0fd0,
        program: &[
            (0x3c08_7fff, "lui $8, 0x7fff"),
            (0x3508_f000, "ori $8, $8, 0xf000"),
            (0x4088_5000, "mtc0 $8, $10"),
            (0x3409_0700, "ori $9, $0, 0x0700"),
            (0x4089_1000, "mtc0 $9, $2"),
            (0x4200_0002, "tlbwi"),
            (0x340b_0008, "ori $11, $0, 0x0008"),
            (0x408b_6000, "mtc0 $11, $12"),
            (0x350c_0ffc, "ori $12, $8, 0x0ffc"),
            (0x0180_0008, "jr $12"),
            (0x4200_0010, "rfe"),
            (0x1000_ffff, "beq $0, $0, 0x7ffffffc"),
        ],
        stages: &[Stage {
            events: &[(Step(0), 12, RAN), (Step(0), 1, ADDRESS_LOAD)],
            left: &[
                (0, Cop(R::Epc, 0x7fff_fffc)),
                (0, Cop(R::Cause, 0x8000_0010)),
                (0, Cop(R::Status, 8)),
                (0, Cop(R::BadVaddr, 0x8000_0000)),
                (0, Cop(R::EntryHi, 0x7fff_f000)),
                (0, Cop(R::Context, 0)),
                (0, Pc(0x8000_0080)),
                (0, Slot(false)),
            ],
        }],
    },
    Run {
        name: "a slot in kseg2 without a row",
        ram: 4_096,
        processors: 1,
        entry: 0x8000_0fdc,
        base: 0x8000_0fdc,
        program: &[
            (0x3c08_c000, "lui $8, 0xc000"),
            (0x4088_5000, "mtc0 $8, $10"),
            (0x3409_0700, "ori $9, $0, 0x0700"),
            (0x4089_1000, "mtc0 $9, $2"),
            (0x4200_0002, "tlbwi"),
            (0x350a_0ffc, "ori $10, $8, 0x0ffc"),
            (0x0140_0008, "jr $10"),
            (0x0000_0000, "nop"),
            (0x1000_ffff, "beq $0, $0, 0xc0000ffc"),
        ],
        stages: &[Stage {
            events: &[(Step(0), 9, RAN), (Step(0), 1, TLB_LOAD)],
            left: &[
                (0, Cop(R::Epc, 0xc000_0ffc)),
                (0, Cop(R::Cause, 0x8000_0008)),
                (0, Cop(R::BadVaddr, 0xc000_1000)),
                (0, Cop(R::EntryHi, 0xc000_1000)),
                (0, Cop(R::Context, 0x0010_0004)),
                (0, Pc(0x8000_0080)),
                (0, Slot(false)),
            ],
        }],
    },
    Run {
        name: "a load in a slot, in kseg2 without a row",
        ram: 4_096,
        processors: 1,
        entry: ENTRY,
        base: ENTRY,
        program: &[
            (0x3c08_c000, "lui $8, 0xc000"),
            (0x1000_0003, "beq $0, $0, 0x80000214"),
            (0x8d09_0000, "lw $9, 0($8)"),
        ],
        stages: &[Stage {
            events: &[(Step(0), 2, RAN), (Step(0), 1, TLB_LOAD)],
            left: &[
                (0, Cop(R::Epc, 0x8000_0204)),
                (0, Cop(R::Cause, 0x8000_0008)),
                (0, Cop(R::BadVaddr, 0xc000_0000)),
                (0, Cop(R::EntryHi, 0xc000_0000)),
                (0, Cop(R::Context, 0x0010_0000)),
                (0, Register(9, 0)),
                (0, Pc(0x8000_0080)),
                (0, Slot(false)),
            ],
        }],
    },
];

#[test]
fn slots_that_trap(rt: HostRuntime) -> Result<(), Fail> {
    check_runs(&rt, &FETCHES)
}
