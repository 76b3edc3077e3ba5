//! The bus, the mainboard and the console.

use super::listing::Left::{Cop, Count, Entries, Output, Pc, Register};
use super::listing::{Run, Stage, check_runs, check_with};
use m161_machine::Event::{Done, Key, Step};
use m161_machine::{Refusal, Register as R};
use m161_test_support::outcomes::{Answer, BUS_DATA, BUS_FETCH, ENTRY, INTERRUPT, OFF, RAN, TAKEN};
use std::process::Abort;
use std::test::Fail;

const IS_OFF: Answer = Err(Refusal::Off);

const NO_PROCESSOR: Answer = Err(Refusal::BadProcessor);

const KEY_FULL: Answer = Err(Refusal::KeyFull);

const NOTHING_SENT: Answer = Err(Refusal::NothingSent);

static CONSOLE_ROWS: [Run; 9] = [
    Run {
        name: "power-off",
        ram: 4_096,
        processors: 1,
        entry: ENTRY,
        base: ENTRY,
        program: &[
            (0x3c08_bfff, "lui $8, 0xbfff"),
            (0xad00_7e08, "sw $0, 32264($8)"),
        ],
        stages: &[
            Stage {
                events: &[(Step(0), 1, RAN), (Step(0), 1, OFF)],
                left: &[(0, Count(2)), (0, Pc(0x8000_0208))],
            },
            Stage {
                events: &[
                    (Step(0), 1, IS_OFF),
                    (Key(0x41), 1, IS_OFF),
                    (Done, 1, IS_OFF),
                    (Step(9), 1, NO_PROCESSOR),
                ],
                left: &[(0, Count(2)), (0, Entries(2))],
            },
        ],
    },
    Run {
        name: "console-limits: keys",
        ram: 4_096,
        processors: 1,
        entry: ENTRY,
        base: ENTRY,
        program: &[(0x0000_0000, "nop")],
        stages: &[Stage {
            events: &[(Key(0x30), 256, TAKEN), (Key(0x31), 1, KEY_FULL)],
            left: &[(0, Entries(256)), (0, Output(0, None))],
        }],
    },
    Run {
        name: "console-limits: output",
        ram: 4_096,
        processors: 1,
        entry: ENTRY,
        base: ENTRY,
        program: &[
            (0x3c08_bfe0, "lui $8, 0xbfe0"),
            (0x3409_0041, "ori $9, $0, 0x0041"),
            (0xad09_0000, "sw $9, 0($8)"),
            (0x3409_0042, "ori $9, $0, 0x0042"),
            (0xad09_0000, "sw $9, 0($8)"),
            (0x8d0a_0004, "lw $10, 4($8)"),
            (0x8d0b_0004, "lw $11, 4($8)"),
        ],
        stages: &[
            Stage {
                events: &[(Done, 1, NOTHING_SENT), (Step(0), 5, RAN), (Done, 1, TAKEN)],
                left: &[(0, Output(1, Some(0x41)))],
            },
            Stage {
                events: &[(Step(0), 1, RAN), (Done, 1, NOTHING_SENT)],
                left: &[
                    (0, Register(10, 2)),
                    (0, Output(1, Some(0x41))),
                    (0, Entries(7)),
                ],
            },
        ],
    },
    Run {
        name: "typed bytes",
        ram: 4_096,
        processors: 1,
        entry: ENTRY,
        base: ENTRY,
        program: &[
            (0x3c08_bfe0, "lui $8, 0xbfe0"),
            (0x8d09_0008, "lw $9, 8($8)"),
            (0x8d0a_0000, "lw $10, 0($8)"),
            (0x8d0b_0000, "lw $11, 0($8)"),
            (0x8d0c_0000, "lw $12, 0($8)"),
            (0x8d0d_0008, "lw $13, 8($8)"),
        ],
        stages: &[Stage {
            events: &[
                (Key(0x61), 1, TAKEN),
                (Key(0x62), 1, TAKEN),
                (Step(0), 6, RAN),
            ],
            left: &[
                (0, Register(9, 2)),
                (0, Register(10, 0x61)),
                (0, Register(11, 0x62)),
                (0, Register(12, 0)),
                (0, Register(13, 0)),
            ],
        }],
    },
    Run {
        name: "console-interrupt",
        ram: 4_096,
        processors: 1,
        entry: ENTRY,
        base: ENTRY,
        program: &[
            (0x3c08_bfe0, "lui $8, 0xbfe0"),
            (0x3409_0001, "ori $9, $0, 0x0001"),
            (0xad09_0004, "sw $9, 4($8)"),
            (0x340a_0041, "ori $10, $0, 0x0041"),
            (0xad0a_0000, "sw $10, 0($8)"),
            (0x8d0b_0004, "lw $11, 4($8)"),
            (0x3c0c_bfff, "lui $12, 0xbfff"),
            (0x358c_7e04, "ori $12, $12, 0x7e04"),
            (0x8d8d_0000, "lw $13, 0($12)"),
            (0xad09_0004, "sw $9, 4($8)"),
            (0x8d0b_0004, "lw $11, 4($8)"),
            (0x8d8d_0000, "lw $13, 0($12)"),
        ],
        stages: &[
            Stage {
                events: &[(Step(0), 5, RAN)],
                left: &[(0, Cop(R::Cause, 0))],
            },
            Stage {
                events: &[(Done, 1, TAKEN), (Step(0), 4, RAN)],
                left: &[
                    (0, Register(11, 3)),
                    (0, Register(13, 1)),
                    (0, Cop(R::Cause, 0x400)),
                ],
            },
            Stage {
                events: &[(Step(0), 3, RAN)],
                left: &[
                    (0, Register(11, 1)),
                    (0, Register(13, 0)),
                    (0, Cop(R::Cause, 0)),
                ],
            },
        ],
    },
    Run {
        name: "a key that interrupts",
        ram: 4_096,
        processors: 1,
        entry: ENTRY,
        base: ENTRY,
        program: &[
            (0x3c08_bfe0, "lui $8, 0xbfe0"),
            (0x3409_0001, "ori $9, $0, 0x0001"),
            (0xad09_0008, "sw $9, 8($8)"),
            (0x340a_0401, "ori $10, $0, 0x0401"),
            (0x408a_6000, "mtc0 $10, $12"),
            (0x0000_0000, "nop"),
        ],
        stages: &[
            Stage {
                events: &[(Step(0), 5, RAN)],
                left: &[(0, Cop(R::Cause, 0))],
            },
            Stage {
                events: &[(Key(0x7a), 1, TAKEN)],
                left: &[(0, Cop(R::Cause, 0x400))],
            },
            Stage {
                events: &[(Step(0), 1, INTERRUPT)],
                left: &[(0, Cop(R::Cause, 0x400)), (0, Cop(R::Epc, 0x8000_0214))],
            },
        ],
    },
    Run {
        name: "an interrupt that is forced",
        ram: 4_096,
        processors: 1,
        entry: ENTRY,
        base: ENTRY,
        program: &[
            (0x3c08_bfe0, "lui $8, 0xbfe0"),
            (0x3409_0005, "ori $9, $0, 0x0005"),
            (0xad09_0008, "sw $9, 8($8)"),
            (0x3409_0004, "ori $9, $0, 0x0004"),
            (0xad09_0008, "sw $9, 8($8)"),
            (0x8d0a_0008, "lw $10, 8($8)"),
        ],
        stages: &[
            Stage {
                events: &[(Step(0), 3, RAN)],
                left: &[(0, Cop(R::Cause, 0x400))],
            },
            Stage {
                events: &[(Step(0), 2, RAN)],
                left: &[(0, Cop(R::Cause, 0))],
            },
            Stage {
                events: &[(Step(0), 1, RAN)],
                left: &[(0, Register(10, 4))],
            },
        ],
    },
    Run {
        name: "a line masked by IRQE",
        ram: 4_096,
        processors: 1,
        entry: ENTRY,
        base: ENTRY,
        program: &[
            (0x3c08_bfe0, "lui $8, 0xbfe0"),
            (0x3409_0005, "ori $9, $0, 0x0005"),
            (0xad09_0004, "sw $9, 4($8)"),
            (0x3c0a_bfff, "lui $10, 0xbfff"),
            (0x354a_7e00, "ori $10, $10, 0x7e00"),
            (0x240b_fffe, "addiu $11, $0, -2"),
            (0xad4b_000c, "sw $11, 12($10)"),
            (0x8d4c_000c, "lw $12, 12($10)"),
            (0x8d4d_0004, "lw $13, 4($10)"),
        ],
        stages: &[
            Stage {
                events: &[(Step(0), 6, RAN)],
                left: &[(0, Cop(R::Cause, 0x400))],
            },
            Stage {
                events: &[(Step(0), 1, RAN)],
                left: &[(0, Cop(R::Cause, 0))],
            },
            Stage {
                events: &[(Step(0), 2, RAN)],
                left: &[(0, Register(12, 0xffff_fffe)), (0, Register(13, 1))],
            },
        ],
    },
    Run {
        name: "bus-errors: a fetch in the slots",
        ram: 1_048_576,
        processors: 1,
        entry: ENTRY,
        base: ENTRY,
        program: &[
            (0x3c08_bfe0, "lui $8, 0xbfe0"),
            (0x0100_0008, "jr $8"),
            (0x0000_0000, "nop"),
        ],
        stages: &[Stage {
            events: &[(Step(0), 3, RAN), (Step(0), 1, BUS_FETCH)],
            left: &[
                (0, Cop(R::Cause, 0x18)),
                (0, Cop(R::Epc, 0xbfe0_0000)),
                (0, Pc(0x8000_0080)),
                (0, Cop(R::BadVaddr, 0)),
            ],
        }],
    },
];

/// The words of an access at bfff0000 or bfe00000, with that in register 8.
static ACCESS: [(u32, &str); 3] = [
    (0x3c08_bfff, "lui $8, 0xbfff"),
    (0x0000_0000, "nop"),
    (0x0000_0000, "nop"),
];

/// Such an access in a machine of this much RAM.
const fn slots(ram: u32) -> Run {
    Run {
        name: "the slots",
        ram,
        processors: 1,
        entry: ENTRY,
        base: ENTRY,
        program: &ACCESS,
        stages: &[],
    }
}

/// Accesses with no answer: the text and the word of the access, and the word of a `lui` of
/// register 8 with the upper half of the address before it.
static ERRORS: [(&str, u32, u32); 5] = [
    ("lw $9, 0($8)", 0x8d09_0000, 0x3c08_8010),
    ("lb $9, 0($8)", 0x8109_0000, 0x3c08_bfe0),
    ("ll $9, 32268($8)", 0xc109_7e0c, 0x3c08_bfff),
    ("sc $9, 32268($8)", 0xe109_7e0c, 0x3c08_bfff),
    ("sw $9, 0($8)", 0xad09_0000, 0x3c08_a010),
];

/// The same, whatever the size of RAM.
static ERRORS_OF_ANY_SIZE: [(&str, u32, u32); 11] = [
    ("lbu $9, 3($8)", 0x9109_0003, 0x3c08_bfe0),
    ("lh $9, 0($8)", 0x8509_0000, 0x3c08_bfe0),
    ("lhu $9, 2($8)", 0x9509_0002, 0x3c08_bfe0),
    ("sb $9, 0($8)", 0xa109_0000, 0x3c08_bfe0),
    ("sh $9, 0($8)", 0xa509_0000, 0x3c08_bfe0),
    ("lwl $9, 0($8)", 0x8909_0000, 0x3c08_bfe0),
    ("lwr $9, 0($8)", 0x9909_0000, 0x3c08_bfe0),
    ("swl $9, 0($8)", 0xa909_0000, 0x3c08_bfe0),
    ("swr $9, 0($8)", 0xb909_0000, 0x3c08_bfe0),
    ("lw $9, 0($8)", 0x8d09_0000, 0x3c08_9fdf),
    ("sw $9, 0($8)", 0xad09_0000, 0x3c08_9fdf),
];

/// Words of the board at boot: the name, the word of an `ori` that adds the low half of its address
/// to register 8, and what is read.
static BOARD: [(&str, u32, u32); 21] = [
    ("vendor of slot 0", 0x3508_0000, 1),
    ("device of slot 0", 0x3508_0004, 4),
    ("revision of slot 0", 0x3508_0008, 1),
    ("vendor of slot 1", 0x3508_0400, 0),
    ("device of slot 30", 0x3508_7804, 0),
    ("vendor of slot 31", 0x3508_7c00, 1),
    ("device of slot 31", 0x3508_7c04, 0xa),
    ("revision of slot 31", 0x3508_7c08, 1),
    ("a word without a name", 0x3508_7c0c, 0),
    ("RAMSZ", 0x3508_7e00, 0x0010_0000),
    ("IRQS", 0x3508_7e04, 0),
    ("PWR", 0x3508_7e08, 0),
    ("IRQE", 0x3508_7e0c, 0xffff_ffff),
    ("CPUS", 0x3508_7e10, 1),
    ("CPUE", 0x3508_7e14, 1),
    ("SELF", 0x3508_7e18, 1),
    ("after SELF", 0x3508_7e1c, 0),
    ("CIRQE", 0x3508_8000, 0xffff_ffff),
    ("CIPI", 0x3508_8004, 0),
    ("CRAM", 0x3508_8300, 0),
    ("CIRQE of no processor", 0x3508_8400, 0),
];

#[test]
fn console(rt: HostRuntime) -> Result<(), Fail> {
    check_runs(&rt, &CONSOLE_ROWS)
}

// Checks that accesses end in a bus error.
fn check_errors(
    rt: &(impl Abort + AllocGlobal),
    ram: u32,
    errors: &[(&str, u32, u32)],
) -> Result<(), Fail> {
    for &(text, word, base) in errors {
        let left = [
            (0, Cop(R::Cause, 0x1c)),
            (0, Cop(R::Epc, 0x8000_0208)),
            (0, Cop(R::BadVaddr, 0)),
            (0, Register(9, 0)),
        ];
        let events = [(Step(0), 2, RAN), (Step(0), 1, BUS_DATA)];
        check_with(
            rt,
            &slots(ram),
            &[(0, base), (2, word)],
            text,
            &events,
            &left,
        )?;
    }
    Ok(())
}

#[test]
fn bus_errors(rt: HostRuntime) -> Result<(), Fail> {
    check_errors(&rt, 1_048_576, &ERRORS)?;
    check_errors(&rt, 4_096, &ERRORS_OF_ANY_SIZE)
}

#[test]
fn board_words(rt: HostRuntime) -> Result<(), Fail> {
    for &(name, word, value) in &BOARD {
        // lw $9, 0($8)
        let words = [(1, word), (2, 0x8d09_0000)];
        check_with(
            &rt,
            &slots(1_048_576),
            &words,
            name,
            &[(Step(0), 3, RAN)],
            &[(0, Register(9, value))],
        )?;
    }
    Ok(())
}
