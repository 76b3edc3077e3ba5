//! `run`: what `ll` links a processor to, and the machine that a schedule's first line names.

use super::run::{AT_ENTRY, Case, POWER_OFF, START_OTHER, TWO, check};
use std::test::Fail;

/// Whether `sc` succeeds after a store to the next word but one: `lui $8, 0x8000`,
/// `ll $9, 4096($8)`, `sw $0, 4104($8)`, `sc $9, 4096($8)`, `bne $9, $0, 0x8000021c`, `nop`, `break`,
/// `nop`.
pub(crate) const LINKED: [u32; 8] = [
    0x3c08_8000,
    0xc109_1000,
    0xad00_1008,
    0xe109_1000,
    0x1520_0002,
    0x0000_0000,
    0x0000_000d,
    0x0000_0000,
];

const LINKED_MACHINE: &str =
    "# machine 1048576 1 b84f42d16ce4d4efd038a5421b9ae0753eaa6a9af454a9320d38a45da43e52bb\n";

/// The Steps before the last one of seven.
const SIX: &str = "s 0 ran\ns 0 ran\ns 0 ran\ns 0 ran\ns 0 ran\ns 0 ran\n";

/// Where the seventh Step traps: the image has no handler.
const NOTED: &str = "stop: end\ns161: note trap 6 0 9 Bp 80000080 (the image has nothing there)\n";

// What `ll` links a processor to: the last Step is one behind the branch, or traps.
static UNITS: [Case; 6] = [
    Case {
        words: &["s161", "run", "image", "--only-log"],
        program: &LINKED,
        schedule: "s 0 7\n",
        status: 3,
        output: &[&[LINKED_MACHINE, "m161 log 2 word\n", SIX, "s 0 ran\n"]],
        errors: "stop: end\n",
    },
    Case {
        words: &["s161", "run", "image", "--link", "word", "--only-log"],
        program: &LINKED,
        schedule: "s 0 7\n",
        status: 3,
        output: &[&[LINKED_MACHINE, "m161 log 2 word\n", SIX, "s 0 ran\n"]],
        errors: "stop: end\n",
    },
    Case {
        words: &["s161", "run", "image", "--link=line", "--only-log"],
        program: &LINKED,
        schedule: "s 0 7\n",
        status: 3,
        output: &[&[
            LINKED_MACHINE,
            "m161 log 2 line\n",
            SIX,
            "s 0 trap 9 80000080\n",
        ]],
        errors: NOTED,
    },
    Case {
        words: &[
            "s161",
            "run",
            "image",
            "--link=line",
            "--only-log",
            "--log=1",
            "--threads=7",
        ],
        program: &LINKED,
        schedule: "",
        status: 3,
        output: &[&[LINKED_MACHINE, "m161 tail 2 line 6\ns 0 trap 9 80000080\n"]],
        errors: "stop: end\n",
    },
    Case {
        words: &[
            "s161",
            "run",
            "image",
            "--turns=1",
            "--events=7",
            "--link=line",
            "--only-log",
        ],
        program: &LINKED,
        schedule: "",
        status: 3,
        output: &[&[
            LINKED_MACHINE,
            "m161 log 2 line\n",
            SIX,
            "s 0 trap 9 80000080\n",
        ]],
        errors: NOTED,
    },
    Case {
        words: &["s161", "trace", "image", "--link=line", "--from=6"],
        program: &LINKED,
        schedule: "s 0 7\n",
        status: 3,
        output: &[
            &["6 0 80000218 0000000d break  cause=00000024 epc=80000218 trap 9 80000080\n"],
            &["stop: end\n"],
        ],
        errors: "",
    },
];

// The machine line of a schedule.
static NAMED: [Case; 13] = [
    Case {
        words: &["s161", "run", "image"],
        program: &START_OTHER,
        schedule: "# machine 1048576 2\ns 0 7\ns 1\n",
        status: 3,
        output: &[&TWO, &["stop: end\n"]],
        errors: "",
    },
    // what is given counts
    Case {
        words: &["s161", "run", "image", "--cpus=1"],
        program: &POWER_OFF,
        schedule: "# machine 1048576 2\ns 1 2\n",
        status: 1,
        output: &[&[AT_ENTRY, "stop: refused 0 1 BadProcessor\n"]],
        errors: "",
    },
    Case {
        words: &["s161", "run", "image", "--cpus", "3", "--ram=4096"],
        program: &POWER_OFF,
        schedule: "# machine 65536 2 strict\ns 2\n",
        status: 3,
        output: &[&[AT_ENTRY, "stop: end\n"]],
        errors: "",
    },
    // what links are to, and a strict machine
    Case {
        words: &["s161", "run", "image", "--only-log"],
        program: &LINKED,
        schedule: "# machine 1048576 1 line\ns 0 7\n",
        status: 3,
        output: &[&[
            LINKED_MACHINE,
            "m161 log 2 line\n",
            SIX,
            "s 0 trap 9 80000080\n",
        ]],
        errors: NOTED,
    },
    Case {
        words: &["s161", "run", "image", "--only-log"],
        program: &LINKED,
        schedule: "# machine 1048576 1 line strict\ns 0 7\n",
        status: 3,
        output: &[&[
            LINKED_MACHINE,
            "m161 log 3 line strict\n",
            SIX,
            "s 0 trap 9 80000080\n",
        ]],
        errors: NOTED,
    },
    Case {
        words: &["s161", "run", "image", "--only-log"],
        program: &LINKED,
        schedule: "# machine 1048576 1 strict\ns 0 7",
        status: 3,
        output: &[&[LINKED_MACHINE, "m161 log 3 word strict\n", SIX, "s 0 ran\n"]],
        errors: "stop: end\n",
    },
    Case {
        words: &["s161", "run", "image", "--only-log", "--link=word"],
        program: &LINKED,
        schedule: "# machine 1048576 1 line strict\ns 0 7\n",
        status: 3,
        output: &[&[LINKED_MACHINE, "m161 log 3 word strict\n", SIX, "s 0 ran\n"]],
        errors: "stop: end\n",
    },
    // the first line alone, in exactly its form
    Case {
        words: &["s161", "run", "image"],
        program: &POWER_OFF,
        schedule: "#\n# machine 1048576 2\ns 1 2\n",
        status: 1,
        output: &[&[AT_ENTRY, "stop: refused 0 1 BadProcessor\n"]],
        errors: "",
    },
    Case {
        words: &["s161", "run", "image"],
        program: &POWER_OFF,
        schedule: "# machine 1048576 02\ns 1 2\n",
        status: 1,
        output: &[&[AT_ENTRY, "stop: refused 0 1 BadProcessor\n"]],
        errors: "",
    },
    Case {
        words: &["s161", "run", "image"],
        program: &POWER_OFF,
        schedule: "# machine 1048576 2\r\ns 1 2\n",
        status: 1,
        output: &[&[AT_ENTRY, "stop: refused 0 1 BadProcessor\n"]],
        errors: "",
    },
    Case {
        words: &["s161", "run", "image"],
        program: &POWER_OFF,
        schedule: "# machine 1048576 2 word\ns 1 2\n",
        status: 1,
        output: &[&[AT_ENTRY, "stop: refused 0 1 BadProcessor\n"]],
        errors: "",
    },
    // a machine that there is not, and a bad line before it
    Case {
        words: &["s161", "run", "image"],
        program: &POWER_OFF,
        schedule: "# machine 4097 1\ns 0 2\n",
        status: 1,
        output: &[],
        errors: "s161: conf (RAM has 1 to 4096 pages of 4096 bytes, there are 1 to 32 processors, and a log has 1 to 16777216 entries)\n",
    },
    Case {
        words: &["s161", "run", "image"],
        program: &POWER_OFF,
        schedule: "# machine 4097 1\ns 0 0\n",
        status: 1,
        output: &[],
        errors: "s161: schedule line 2 (a line is s P, s P N, k HH, o, blank or # ..)\n",
    },
];

#[test]
fn link_units(rt: HostRuntime) -> Result<(), Fail> {
    check(&rt, &UNITS)
}

#[test]
fn named_machines(rt: HostRuntime) -> Result<(), Fail> {
    check(&rt, &NAMED)
}
