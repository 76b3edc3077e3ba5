//! `run` and `schedule` by an order behind the events of a file, `--after`. What is printed is worked out by
//! hand.

use super::over_files::{Case, check};
use super::run::{POWER_OFF, REST, STAND_STILL, STAND_STILL_MACHINE, START_OTHER, ZEROS};
use std::test::Fail;

static AFTER: [Case; 13] = [
    // --events counts the order's events alone
    Case {
        words: &[
            "s161",
            "run",
            "image",
            "--turns",
            "1",
            "--events",
            "2",
            "--after",
            "text",
            "--only-log",
        ],
        program: &STAND_STILL,
        text: &["s 0 3\n"],
        input: "not read",
        status: 3,
        output: &[
            STAND_STILL_MACHINE,
            "m161 log 2 word\ns 0 ran\ns 0 ran\ns 0 ran\ns 0 ran\ns 0 ran\n",
        ],
        errors: "stop: end\n",
    },
    Case {
        words: &[
            "s161", "schedule", "image", "--turns", "1", "--events", "2", "--after", "text",
        ],
        program: &STAND_STILL,
        text: &["s 0 3\nk 41\n"],
        input: "",
        status: 0,
        output: &["# machine 1048576 1\ns 0 3\nk 41\ns 0 2\n"],
        errors: "",
    },
    // a turn begins behind the file's events, and the file names the machine
    Case {
        words: &[
            "s161", "schedule", "image", "--turns", "2", "--events", "6", "--after", "text",
        ],
        program: &START_OTHER,
        text: &["# machine 1048576 2\ns 0 7\ns 1\n"],
        input: "",
        status: 0,
        output: &["# machine 1048576 2\ns 0 7\ns 1\ns 0 2\ns 1 2\ns 0 2\n"],
        errors: "",
    },
    // a log does so, too
    Case {
        words: &[
            "s161", "schedule", "image", "--turns", "1", "--after", "text",
        ],
        program: &POWER_OFF,
        text: &["m161 log 3 line strict\ns 0 ran\n"],
        input: "",
        status: 0,
        output: &["# machine 1048576 1 line strict\ns 0 2\n"],
        errors: "",
    },
    Case {
        words: &[
            "s161",
            "schedule",
            "image",
            "--turns=1",
            "--after=text",
            "--ram=4096",
            "--link=line",
        ],
        program: &POWER_OFF,
        text: &["# machine 8192 1\n"],
        input: "",
        status: 0,
        output: &["# machine 4096 1 line\ns 0 2\n"],
        errors: "",
    },
    // the file's events switch the machine off
    Case {
        words: &["s161", "run", "image", "--turns", "1", "--after", "text"],
        program: &POWER_OFF,
        text: &["s 0 2\ns 0\n"],
        input: "",
        status: 0,
        output: &[
            "cpu 0 running pc 80000208\n",
            ZEROS,
            "r8 bfff0000 r9 00000000 r10 00000000 r11 00000000\n",
            REST,
            "stop: off\n",
        ],
        errors: "",
    },
    Case {
        words: &[
            "s161", "schedule", "image", "--turns", "1", "--after", "text",
        ],
        program: &POWER_OFF,
        text: &["s 0 2\ns 0\n"],
        input: "",
        status: 0,
        output: &["# machine 1048576 1\ns 0 2\n"],
        errors: "",
    },
    // one of them is refused
    Case {
        words: &[
            "s161",
            "run",
            "image",
            "--turns",
            "1",
            "--after",
            "text",
            "--only-output",
        ],
        program: &POWER_OFF,
        text: &["s 0\ns 1\ns 0\n"],
        input: "",
        status: 1,
        output: &[],
        errors: "stop: refused 1 1 BadProcessor\n",
    },
    Case {
        words: &[
            "s161", "schedule", "image", "--turns", "1", "--after", "text",
        ],
        program: &POWER_OFF,
        text: &["s 0\ns 1\ns 0\n"],
        input: "",
        status: 1,
        output: &[],
        errors: "s161: after 1 1 BadProcessor (the machine refuses this event, counted from 0)\n",
    },
    // the file is at fault
    Case {
        words: &["s161", "run", "image", "--turns", "1", "--after", "other"],
        program: &POWER_OFF,
        text: &[""],
        input: "",
        status: 1,
        output: &[],
        errors: "s161: file other (the file can't be read)\n",
    },
    Case {
        words: &[
            "s161", "schedule", "image", "--turns", "1", "--after", "text", "--ram", "4097",
        ],
        program: &POWER_OFF,
        text: &["s 0\ns 0 0\n"],
        input: "",
        status: 1,
        output: &[],
        errors: "s161: schedule line 2 (a line is s P, s P N, k HH, o, blank or # ..)\n",
    },
    Case {
        words: &["s161", "run", "image", "--turns", "1", "--after", "text"],
        program: &POWER_OFF,
        text: &[STAND_STILL_MACHINE, "m161 log 2 word\ns 0 ran\n"],
        input: "",
        status: 1,
        output: &[],
        errors: "s161: log image (the log is that of another image)\n",
    },
    // a file of keys that can't be read comes before the text's fault
    Case {
        words: &[
            "s161", "run", "image", "--turns", "1", "--after", "text", "--keys", "other",
        ],
        program: &POWER_OFF,
        text: &["bad\n"],
        input: "",
        status: 1,
        output: &[],
        errors: "s161: file other (the file can't be read)\n",
    },
];

#[test]
fn orders_behind_events(rt: HostRuntime) -> Result<(), Fail> {
    check(&rt, &AFTER)
}
