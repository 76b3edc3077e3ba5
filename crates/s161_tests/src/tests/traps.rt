//! `run --traps`: the traps of a run, counted by processor and code.

use super::run::{Case, REST, ZEROS, check};
use std::test::Fail;

/// `syscall`. From the general vector 96 words of zeros lead to it again.
const SYSTEM_CALL: [u32; 1] = [0x0000_000c];

/// Behind its trap.
const AT_VECTOR: [&str; 4] = [
    "cpu 0 running pc 80000080\n",
    ZEROS,
    "r8 00000000 r9 00000000 r10 00000000 r11 00000000\n",
    REST,
];

const TWO_TRAPS: &str = "traps 0 8 Sys 2 first 0 80000200 -\n";

// Traps, and the note on the first, since the image has no handler: of a schedule, of an order, and in threads. A refused event is none, and a key has a number.
static TRAPPED: [Case; 6] = [
    Case {
        words: &["s161", "run", "image", "--traps"],
        program: &SYSTEM_CALL,
        schedule: "s 0 98\n",
        status: 3,
        output: &[&AT_VECTOR, &[TWO_TRAPS, "stop: end\n"]],
        errors: "s161: note trap 0 0 8 Sys 80000080 (the image has nothing there)\n",
    },
    Case {
        words: &[
            "s161",
            "run",
            "image",
            "--traps",
            "--turns=1",
            "--events=98",
        ],
        program: &SYSTEM_CALL,
        schedule: "",
        status: 3,
        output: &[&AT_VECTOR, &[TWO_TRAPS, "stop: end\n"]],
        errors: "s161: note trap 0 0 8 Sys 80000080 (the image has nothing there)\n",
    },
    Case {
        words: &[
            "s161",
            "run",
            "image",
            "--traps",
            "--threads=98",
            "--log=98",
        ],
        program: &SYSTEM_CALL,
        schedule: "",
        status: 3,
        output: &[&AT_VECTOR, &[TWO_TRAPS, "stop: end\n"]],
        errors: "",
    },
    Case {
        words: &["s161", "run", "image", "--traps"],
        program: &SYSTEM_CALL,
        schedule: "k 41\ns 0\ns 1\n",
        status: 1,
        output: &[
            &AT_VECTOR,
            &["traps 0 8 Sys 1 first 1 80000200 -\nstop: refused 2 1 BadProcessor\n"],
        ],
        errors: "s161: note trap 1 0 8 Sys 80000080 (the image has nothing there)\n",
    },
    Case {
        words: &[
            "s161",
            "run",
            "image",
            "--traps",
            "--threads=98",
            "--log=97",
        ],
        program: &SYSTEM_CALL,
        schedule: "",
        status: 2,
        output: &[],
        errors: "error: --traps with --threads needs a log of each Step: --log N, of at least those of a thread times the processors\n\nFor more information, try '--help'.\n",
    },
    Case {
        words: &["s161", "run", "image", "--traps", "--only-log"],
        program: &SYSTEM_CALL,
        schedule: "",
        status: 2,
        output: &[],
        errors: "error: --traps prints lines behind the registers, which --only-log and --only-output leave out\n\nFor more information, try '--help'.\n",
    },
];

#[test]
fn traps_are_counted(rt: HostRuntime) -> Result<(), Fail> {
    check(&rt, &TRAPPED)
}
