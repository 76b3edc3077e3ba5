//! Coprocessor 0: its registers, the clock, interrupts and `wait`.

use super::listing::Left::{Cop, Count, Pc, Register, State};
use super::listing::{Run, Stage, check_runs, check_with};
use m161_machine::Event::Step;
use m161_machine::{ProcessorState, Register as R};
use m161_test_support::outcomes::{ENTRY, IDLE, INTERRUPT, RAN};
use std::test::Fail;

static CLOCK: [Run; 9] = [
    Run {
        name: "arithmetic: Random",
        ram: 4_096,
        processors: 1,
        entry: ENTRY,
        base: ENTRY,
        program: &[(0x0000_0000, "nop")],
        stages: &[
            Stage {
                events: &[(Step(0), 55, RAN)],
                left: &[(0, Cop(R::Random, 0x800))],
            },
            Stage {
                events: &[(Step(0), 1, RAN)],
                left: &[(0, Cop(R::Random, 0x3f00))],
            },
            Stage {
                events: &[(Step(0), 1, RAN)],
                left: &[(0, Cop(R::Random, 0x3e00))],
            },
        ],
    },
    Run {
        name: "arithmetic: Compare",
        ram: 4_096,
        processors: 1,
        entry: ENTRY,
        base: ENTRY,
        program: &[
            (0x3408_0005, "ori $8, $0, 0x0005"),
            (0x4088_5800, "mtc0 $8, $11"),
            (0x0000_0000, "nop"),
            (0x0000_0000, "nop"),
            (0x0000_0000, "nop"),
            (0x0000_0000, "nop"),
            (0x4088_5800, "mtc0 $8, $11"),
        ],
        stages: &[
            Stage {
                events: &[(Step(0), 1, RAN)],
                left: &[(0, Cop(R::Count, 1))],
            },
            Stage {
                events: &[(Step(0), 1, RAN)],
                left: &[
                    (0, Cop(R::Count, 1)),
                    (0, Cop(R::Compare, 5)),
                    (0, Cop(R::Cause, 0)),
                ],
            },
            Stage {
                events: &[(Step(0), 3, RAN)],
                left: &[(0, Cop(R::Count, 4)), (0, Cop(R::Cause, 0))],
            },
            Stage {
                events: &[(Step(0), 1, RAN)],
                left: &[(0, Cop(R::Count, 0)), (0, Cop(R::Cause, 0x8000))],
            },
            Stage {
                events: &[(Step(0), 1, RAN)],
                left: &[(0, Cop(R::Count, 1)), (0, Cop(R::Cause, 0))],
            },
        ],
    },
    Run {
        name: "a Compare of zero raises nothing",
        ram: 4_096,
        processors: 1,
        entry: ENTRY,
        base: ENTRY,
        program: &[
            (0x2408_ffff, "addiu $8, $0, -1"),
            (0x4088_4800, "mtc0 $8, $9"),
            (0x0000_0000, "nop"),
        ],
        stages: &[
            Stage {
                events: &[(Step(0), 2, RAN)],
                left: &[(0, Cop(R::Count, 0)), (0, Cop(R::Cause, 0))],
            },
            Stage {
                events: &[(Step(0), 1, RAN)],
                left: &[(0, Cop(R::Count, 1)), (0, Cop(R::Cause, 0))],
            },
        ],
    },
    Run {
        name: "Count reads as it was before the Step",
        ram: 4_096,
        processors: 1,
        entry: ENTRY,
        base: ENTRY,
        program: &[
            (0x3408_0100, "ori $8, $0, 0x0100"),
            (0x4088_4800, "mtc0 $8, $9"),
            (0x4009_4800, "mfc0 $9, $9"),
        ],
        stages: &[Stage {
            events: &[(Step(0), 3, RAN)],
            left: &[(0, Register(9, 0x101)), (0, Cop(R::Count, 0x102))],
        }],
    },
    Run {
        name: "a wait that ends with interrupts disabled",
        ram: 4_096,
        processors: 1,
        entry: ENTRY,
        base: ENTRY,
        program: &[
            (0x3408_8000, "ori $8, $0, 0x8000"),
            (0x4088_6000, "mtc0 $8, $12"),
            (0x3409_0004, "ori $9, $0, 0x0004"),
            (0x4089_5800, "mtc0 $9, $11"),
            (0x4200_0020, "wait"),
            (0x0000_0000, "nop"),
        ],
        stages: &[
            Stage {
                events: &[(Step(0), 5, RAN)],
                left: &[
                    (0, State(ProcessorState::Waiting)),
                    (0, Pc(0x8000_0214)),
                    (0, Cop(R::Count, 2)),
                ],
            },
            Stage {
                events: &[(Step(0), 2, IDLE)],
                left: &[
                    (0, State(ProcessorState::Waiting)),
                    (0, Cop(R::Count, 0)),
                    (0, Cop(R::Cause, 0x8000)),
                    (0, Cop(R::Random, 0x3800)),
                ],
            },
            Stage {
                events: &[(Step(0), 1, RAN)],
                left: &[
                    (0, State(ProcessorState::Running)),
                    (0, Pc(0x8000_0218)),
                    (0, Cop(R::Status, 0x8000)),
                    (0, Cop(R::Epc, 0)),
                    (0, Count(8)),
                ],
            },
        ],
    },
    Run {
        name: "a wait that ends with interrupts enabled",
        ram: 4_096,
        processors: 1,
        entry: ENTRY,
        base: ENTRY,
        program: &[
            (0x3408_8001, "ori $8, $0, 0x8001"),
            (0x4088_6000, "mtc0 $8, $12"),
            (0x3409_0004, "ori $9, $0, 0x0004"),
            (0x4089_5800, "mtc0 $9, $11"),
            (0x4200_0020, "wait"),
            (0x0000_0000, "nop"),
        ],
        stages: &[
            Stage {
                events: &[(Step(0), 5, RAN)],
                left: &[(0, State(ProcessorState::Waiting))],
            },
            Stage {
                events: &[(Step(0), 2, IDLE)],
                left: &[(0, State(ProcessorState::Waiting)), (0, Pc(0x8000_0214))],
            },
            Stage {
                events: &[(Step(0), 1, INTERRUPT)],
                left: &[
                    (0, State(ProcessorState::Running)),
                    (0, Pc(0x8000_0080)),
                    (0, Cop(R::Epc, 0x8000_0214)),
                    (0, Cop(R::Cause, 0x8000)),
                    (0, Cop(R::Status, 0x8004)),
                    (0, Count(8)),
                ],
            },
        ],
    },
    Run {
        name: "a wait where an interrupt is pending already",
        ram: 4_096,
        processors: 1,
        entry: ENTRY,
        base: ENTRY,
        program: &[
            (0x3408_0100, "ori $8, $0, 0x0100"),
            (0x4088_6000, "mtc0 $8, $12"),
            (0x4088_6800, "mtc0 $8, $13"),
            (0x4200_0020, "wait"),
            (0x0000_0000, "nop"),
        ],
        stages: &[
            Stage {
                events: &[(Step(0), 4, RAN)],
                left: &[
                    (0, State(ProcessorState::Waiting)),
                    (0, Cop(R::Cause, 0x100)),
                ],
            },
            Stage {
                events: &[(Step(0), 1, RAN)],
                left: &[(0, State(ProcessorState::Running)), (0, Pc(0x8000_0214))],
            },
        ],
    },
    Run {
        name: "a masked interrupt",
        ram: 4_096,
        processors: 1,
        entry: ENTRY,
        base: ENTRY,
        program: &[
            (0x3408_0201, "ori $8, $0, 0x0201"),
            (0x4088_6000, "mtc0 $8, $12"),
            (0x3409_0100, "ori $9, $0, 0x0100"),
            (0x4089_6800, "mtc0 $9, $13"),
            (0x0000_0000, "nop"),
        ],
        stages: &[Stage {
            events: &[(Step(0), 5, RAN)],
            left: &[(0, Cop(R::Cause, 0x100)), (0, Pc(0x8000_0214))],
        }],
    },
    Run {
        name: "a Status without the two low bits",
        ram: 4_096,
        processors: 1,
        entry: ENTRY,
        base: ENTRY,
        program: &[
            (0x2408_fffc, "addiu $8, $0, -4"),
            (0x4088_6000, "mtc0 $8, $12"),
            (0x4009_6000, "mfc0 $9, $12"),
        ],
        stages: &[Stage {
            events: &[(Step(0), 3, RAN)],
            left: &[
                (0, Register(9, 0xf040_ff3c)),
                (0, Cop(R::Status, 0xf040_ff3c)),
            ],
        }],
    },
];

/// All ones in register 8; the second word is for a table.
static ONES: Run = Run {
    name: "all ones",
    ram: 4_096,
    processors: 1,
    entry: ENTRY,
    base: ENTRY,
    program: &[
        (0x2408_ffff, "addiu $8, $0, -1"),
        (0x0000_0000, "nop"),
        (0x0000_0000, "nop"),
    ],
    stages: &[Stage {
        events: &[(Step(0), 1, RAN)],
        left: &[(0, Register(8, 0xffff_ffff))],
    }],
};

/// Writes of all ones: the text, the word, the register and what is left there.
static WRITES: [(&str, u32, R, u32); 12] = [
    ("mtc0 $8, $0", 0x4088_0000, R::Index, 0x8000_3f00),
    ("mtc0 $8, $1", 0x4088_0800, R::Random, 0x3d00),
    ("mtc0 $8, $2", 0x4088_1000, R::EntryLo, 0xffff_ff00),
    ("mtc0 $8, $4", 0x4088_2000, R::Context, 0xffe0_0000),
    ("mtc0 $8, $8", 0x4088_4000, R::BadVaddr, 0),
    ("mtc0 $8, $9", 0x4088_4800, R::Count, 0),
    ("mtc0 $8, $10", 0x4088_5000, R::EntryHi, 0xffff_ffc0),
    ("mtc0 $8, $11", 0x4088_5800, R::Compare, 0xffff_ffff),
    ("mtc0 $8, $12", 0x4088_6000, R::Status, 0xf040_ff3f),
    ("mtc0 $8, $13", 0x4088_6800, R::Cause, 0x300),
    ("mtc0 $8, $14", 0x4088_7000, R::Epc, 0),
    ("mtc0 $8, $15", 0x4088_7800, R::Prid, 0xa1),
];

/// Writes of all ones, read again by `mfc0` of the same register into register 9: the text and the
/// word of the write, the word of the read, and what is read. Status isn't among them: it would
/// begin user mode.
static READS: [(&str, u32, u32, u32); 31] = [
    ("mtc0 $8, $0", 0x4088_0000, 0x4009_0000, 0x8000_3f00),
    ("mtc0 $8, $1", 0x4088_0800, 0x4009_0800, 0x3d00),
    ("mtc0 $8, $2", 0x4088_1000, 0x4009_1000, 0xffff_ff00),
    ("mtc0 $8, $3", 0x4088_1800, 0x4009_1800, 0),
    ("mtc0 $8, $4", 0x4088_2000, 0x4009_2000, 0xffe0_0000),
    ("mtc0 $8, $5", 0x4088_2800, 0x4009_2800, 0),
    ("mtc0 $8, $6", 0x4088_3000, 0x4009_3000, 0),
    ("mtc0 $8, $7", 0x4088_3800, 0x4009_3800, 0),
    ("mtc0 $8, $8", 0x4088_4000, 0x4009_4000, 0),
    ("mtc0 $8, $9", 0x4088_4800, 0x4009_4800, 0),
    ("mtc0 $8, $10", 0x4088_5000, 0x4009_5000, 0xffff_ffc0),
    ("mtc0 $8, $11", 0x4088_5800, 0x4009_5800, 0xffff_ffff),
    ("mtc0 $8, $13", 0x4088_6800, 0x4009_6800, 0x300),
    ("mtc0 $8, $14", 0x4088_7000, 0x4009_7000, 0),
    ("mtc0 $8, $15", 0x4088_7800, 0x4009_7800, 0xa1),
    ("mtc0 $8, $16", 0x4088_8000, 0x4009_8000, 0),
    ("mtc0 $8, $17", 0x4088_8800, 0x4009_8800, 0),
    ("mtc0 $8, $18", 0x4088_9000, 0x4009_9000, 0),
    ("mtc0 $8, $19", 0x4088_9800, 0x4009_9800, 0),
    ("mtc0 $8, $20", 0x4088_a000, 0x4009_a000, 0),
    ("mtc0 $8, $21", 0x4088_a800, 0x4009_a800, 0),
    ("mtc0 $8, $22", 0x4088_b000, 0x4009_b000, 0),
    ("mtc0 $8, $23", 0x4088_b800, 0x4009_b800, 0),
    ("mtc0 $8, $24", 0x4088_c000, 0x4009_c000, 0),
    ("mtc0 $8, $25", 0x4088_c800, 0x4009_c800, 0),
    ("mtc0 $8, $26", 0x4088_d000, 0x4009_d000, 0),
    ("mtc0 $8, $27", 0x4088_d800, 0x4009_d800, 0),
    ("mtc0 $8, $28", 0x4088_e000, 0x4009_e000, 0),
    ("mtc0 $8, $29", 0x4088_e800, 0x4009_e800, 0),
    ("mtc0 $8, $30", 0x4088_f000, 0x4009_f000, 0),
    ("mtc0 $8, $31", 0x4088_f800, 0x4009_f800, 0),
];

#[test]
fn clock_and_wait(rt: HostRuntime) -> Result<(), Fail> {
    check_runs(&rt, &CLOCK)
}

#[test]
fn writes_of_all_ones(rt: HostRuntime) -> Result<(), Fail> {
    for &(text, word, register, value) in &WRITES {
        let left = [(0, Cop(register, value))];
        check_with(&rt, &ONES, &[(1, word)], text, &[(Step(0), 1, RAN)], &left)?;
    }
    Ok(())
}

#[test]
fn reads_after_all_ones(rt: HostRuntime) -> Result<(), Fail> {
    for &(text, word, read, value) in &READS {
        let left = [(0, Register(9, value))];
        let words = [(1, word), (2, read)];
        check_with(&rt, &ONES, &words, text, &[(Step(0), 2, RAN)], &left)?;
    }
    Ok(())
}
