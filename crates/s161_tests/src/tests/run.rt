//! `run`: an image under a schedule or in threads, and what is printed. A case is one of
//! `power-off`'s image or of a small program; what it leaves is worked out by hand.

use super::same;
use super::streams::{Left, Memory, OneFile, all};
use m161_test_support::files::file_at;
use m161_test_support::outcomes::ENTRY;
use s161_base::files::FileSource;
use s161_progress::Progress;
use s161_work::work::work;
use std::io::Read;
use std::process::Abort;
use std::sync::Wait;
use std::test::Fail;
use std::thread::Threads;

/// Processor 0 at an image's first instruction.
pub(crate) const AT_ENTRY: &str = "cpu 0 running pc 80000200
r0 00000000 r1 00000000 r2 00000000 r3 00000000
r4 00000000 r5 00000000 r6 00000000 r7 00000000
r8 00000000 r9 00000000 r10 00000000 r11 00000000
r12 00000000 r13 00000000 r14 00000000 r15 00000000
r16 00000000 r17 00000000 r18 00000000 r19 00000000
r20 00000000 r21 00000000 r22 00000000 r23 00000000
r24 00000000 r25 00000000 r26 00000000 r27 00000000
r28 00000000 r29 00000000 r30 00000000 r31 00000000
hi 00000000 lo 00000000
";

/// Its registers from 12 on, where all are zero.
pub(crate) const REST: &str = "r12 00000000 r13 00000000 r14 00000000 r15 00000000
r16 00000000 r17 00000000 r18 00000000 r19 00000000
r20 00000000 r21 00000000 r22 00000000 r23 00000000
r24 00000000 r25 00000000 r26 00000000 r27 00000000
r28 00000000 r29 00000000 r30 00000000 r31 00000000
hi 00000000 lo 00000000
";

pub(crate) const ZEROS: &str = "r0 00000000 r1 00000000 r2 00000000 r3 00000000
r4 00000000 r5 00000000 r6 00000000 r7 00000000
";

/// `lui $8, 0xbfff`, and a store that switches the machine off.
pub(crate) const POWER_OFF: [u32; 2] = [0x3c08_bfff, 0xad00_7e08];

/// The machine line of its run: the size, and the SHA-256 of the file as Python's hashlib gives it.
const POWER_OFF_MACHINE: &str =
    "# machine 1048576 1 3eed35d58a898e032690f2f327d45c9a1ff9719b88617d91833eb596d41720a9\n";

/// After it.
pub(crate) const POWERED_OFF: [&str; 4] = [
    "cpu 0 running pc 80000208\n",
    ZEROS,
    "r8 bfff0000 r9 00000000 r10 00000000 r11 00000000\n",
    REST,
];

/// After its first instruction.
const HALF_WAY: [&str; 4] = [
    "cpu 0 running pc 80000204\n",
    ZEROS,
    "r8 bfff0000 r9 00000000 r10 00000000 r11 00000000\n",
    REST,
];

/// A loop that leaves the registers alone: `beq $0, $0, 0x80000200`, `nop`.
pub(crate) const STAND_STILL: [u32; 2] = [0x1000_ffff, 0x0000_0000];

pub(crate) const STAND_STILL_MACHINE: &str =
    "# machine 1048576 1 fa3b050d2482a05e95dc602587fe3a39152519cd77a6cad097fda85189f92d30\n";

/// A byte for the console: `lui $8, 0xbfe0`, `ori $9, $0, BYTE`, `sw $9, 0($8)`.
const SEND_H: [u32; 3] = [0x3c08_bfe0, 0x3409_0048, 0xad09_0000];

const SEND_LINE_END: [u32; 3] = [0x3c08_bfe0, 0x3409_000a, 0xad09_0000];

/// Processor 1 is started at 80000220, where `ori $12, $0, 7` is.
pub(crate) const START_OTHER: [u32; 9] = [
    0x3c08_bfff,
    0x3c09_8000,
    0x3529_0220,
    0x350a_8700,
    0xad49_0000,
    0x340b_0002,
    0xad0b_7e14,
    0,
    0x340c_0007,
];

const START_OTHER_MACHINE: &str =
    "# machine 1048576 2 e6ec51dc5abde77f019250c2dec06f12480265fd72b4cf0d3bd9748e203fc382\n";

/// Both processors after eight Steps.
pub(crate) const TWO: [&str; 7] = [
    "cpu 0 running pc 8000021c\n",
    ZEROS,
    "r8 bfff0000 r9 80000220 r10 bfff8700 r11 00000002\n",
    REST,
    "cpu 1 running pc 80000224\n",
    ZEROS,
    "r8 00000000 r9 00000000 r10 00000000 r11 00000000
r12 00000007 r13 00000000 r14 00000000 r15 00000000
r16 00000000 r17 00000000 r18 00000000 r19 00000000
r20 00000000 r21 00000000 r22 00000000 r23 00000000
r24 00000000 r25 00000000 r26 00000000 r27 00000000
r28 00000000 r29 bfff8800 r30 00000000 r31 00000000
hi 00000000 lo 00000000
",
];

/// The other one isn't started yet.
const ONE: [&str; 4] = [
    "cpu 0 running pc 80000218\n",
    ZEROS,
    "r8 bfff0000 r9 80000220 r10 bfff8700 r11 00000002\n",
    REST,
];

/// A run, and what it leaves.
pub(crate) struct Case {
    pub(crate) words: &'static [&'static str],
    pub(crate) program: &'static [u32],
    pub(crate) schedule: &'static str,
    pub(crate) status: u8,
    pub(crate) output: &'static [&'static [&'static str]],
    pub(crate) errors: &'static str,
}

/// One text of several.
pub(crate) fn join(rt: &impl AllocGlobal, parts: &[&[&str]]) -> Result<String, Fail> {
    let mut text = String::new(rt.alloc());
    for part in parts {
        for piece in *part {
            text.push_str(piece)?;
        }
    }
    Ok(text)
}

/// Runs a program over these streams, against the texts that it should write.
pub(crate) fn work_over<F: FileSource, I: Read>(
    rt: &(impl AllocGlobal + Threads + Wait + Sync),
    words: &[&str],
    files: &mut F,
    input: &mut I,
    texts: [&str; 2],
) -> Left {
    let mut output = Memory::new(rt.alloc(), usize::MAX, true);
    let mut errors = Memory::new(rt.alloc(), usize::MAX, true);
    let status = work(
        rt,
        words,
        files,
        input,
        &mut output,
        &mut errors,
        &Progress::new(),
    );
    (
        status,
        output.match_text(texts[0]),
        errors.match_text(texts[1]),
    )
}

/// Runs the cases, and fails the test at the first that leaves something else.
pub(crate) fn check(
    rt: &(impl Abort + AllocGlobal + Threads + Wait + Sync),
    cases: &[Case],
) -> Result<(), Fail> {
    for case in cases {
        let file = file_at(rt.alloc(), ENTRY, case.program)?;
        let mut files = OneFile {
            name: "image",
            bytes: &file,
        };
        let output = join(rt, case.output)?;
        let texts = [output.as_str(), case.errors];
        let mut input = case.schedule.as_bytes();
        let found = work_over(rt, case.words, &mut files, &mut input, texts);
        let expected = (case.status, all(texts[0]), all(texts[1]));
        same(rt, (case.schedule, found), (case.schedule, expected));
    }
    Ok(())
}

static STOPS: [Case; 6] = [
    // power-off
    Case {
        words: &["s161", "run", "image"],
        program: &POWER_OFF,
        schedule: "s 0 2\n",
        status: 0,
        output: &[&POWERED_OFF, &["stop: off\n"]],
        errors: "",
    },
    // no event is made after the one that switches off
    Case {
        words: &["s161", "run", "image"],
        program: &POWER_OFF,
        schedule: "s 0 3\ns 9\no",
        status: 0,
        output: &[&POWERED_OFF, &["stop: off\n"]],
        errors: "",
    },
    Case {
        words: &["s161", "run", "image"],
        program: &POWER_OFF,
        schedule: "# one Step\n\ns 0",
        status: 3,
        output: &[&HALF_WAY, &["stop: end\n"]],
        errors: "",
    },
    // log-text
    Case {
        words: &["s161", "run", "--show-log", "image"],
        program: &POWER_OFF,
        schedule: "k 41\ns 0\ns 0\n",
        status: 0,
        output: &[
            &POWERED_OFF,
            &[
                POWER_OFF_MACHINE,
                "m161 log 2 word\nk 41 taken\ns 0 ran\ns 0 off\n",
            ],
            &["stop: off\n"],
        ],
        errors: "",
    },
    Case {
        words: &["s161", "run", "image"],
        program: &POWER_OFF,
        schedule: "s 0\no\ns 0\n",
        status: 1,
        output: &[&HALF_WAY, &["stop: refused 1 5 NothingSent\n"]],
        errors: "",
    },
    Case {
        words: &["s161", "run", "image"],
        program: &POWER_OFF,
        schedule: "s 1 2\n",
        status: 1,
        output: &[&[AT_ENTRY, "stop: refused 0 1 BadProcessor\n"]],
        errors: "",
    },
];

// A log that keeps as many entries as there are events, or fewer.
static WINDOWS: [Case; 4] = [
    Case {
        words: &["s161", "run", "--log", "1", "image"],
        program: &POWER_OFF,
        schedule: "s 0 2\n",
        status: 0,
        output: &[&POWERED_OFF, &["stop: off\n"]],
        errors: "",
    },
    // dropped-entry
    Case {
        words: &["s161", "run", "--log", "1", "--show-log", "image"],
        program: &POWER_OFF,
        schedule: "s 0 2\n",
        status: 0,
        output: &[
            &POWERED_OFF,
            &[
                POWER_OFF_MACHINE,
                "m161 tail 2 word 1\ns 0 off\n",
                "stop: off\n",
            ],
        ],
        errors: "",
    },
    Case {
        words: &["s161", "run", "--log", "2", "--show-log", "image"],
        program: &POWER_OFF,
        schedule: "s 0 2\n",
        status: 0,
        output: &[
            &POWERED_OFF,
            &[
                POWER_OFF_MACHINE,
                "m161 log 2 word\ns 0 ran\ns 0 off\n",
                "stop: off\n",
            ],
        ],
        errors: "",
    },
    Case {
        words: &["s161", "run", "image", "--show-log", "--log=3"],
        program: &STAND_STILL,
        schedule: "s 0 12\nk 41\n",
        status: 3,
        output: &[
            &[AT_ENTRY, STAND_STILL_MACHINE, "m161 tail 2 word 10\n"],
            &["s 0 ran\ns 0 ran\nk 41 taken\n", "stop: end\n"],
        ],
        errors: "",
    },
];

static EMPTY_SCHEDULES: [Case; 2] = [
    Case {
        words: &["s161", "run", "image"],
        program: &POWER_OFF,
        schedule: "",
        status: 3,
        output: &[&[AT_ENTRY, "stop: end\n"]],
        errors: "",
    },
    Case {
        words: &["s161", "run", "image", "--show-log"],
        program: &POWER_OFF,
        schedule: "",
        status: 3,
        output: &[&[
            AT_ENTRY,
            POWER_OFF_MACHINE,
            "m161 log 2 word\n",
            "stop: end\n",
        ]],
        errors: "",
    },
];

static OUTPUTS: [Case; 8] = [
    // the log alone, and a schedule
    Case {
        words: &["s161", "run", "image", "--only-log"],
        program: &POWER_OFF,
        schedule: "s 0 2\n",
        status: 0,
        output: &[&[POWER_OFF_MACHINE, "m161 log 2 word\ns 0 ran\ns 0 off\n"]],
        errors: "stop: off\n",
    },
    Case {
        words: &["s161", "schedule", "image", "--turns", "1"],
        program: &POWER_OFF,
        schedule: "",
        status: 0,
        output: &[&["# machine 1048576 1\ns 0 2\n"]],
        errors: "",
    },
    // a line end is added where one lacks
    Case {
        words: &["s161", "run", "image"],
        program: &SEND_H,
        schedule: "s 0 3\no\n",
        status: 3,
        output: &[
            &["H\n", "cpu 0 running pc 8000020c\n", ZEROS],
            &["r8 bfe00000 r9 00000048 r10 00000000 r11 00000000\n", REST],
            &["stop: end\n"],
        ],
        errors: "",
    },
    Case {
        words: &["s161", "run", "image"],
        program: &SEND_LINE_END,
        schedule: "s 0 3\no\n",
        status: 3,
        output: &[
            &["\n", "cpu 0 running pc 8000020c\n", ZEROS],
            &["r8 bfe00000 r9 0000000a r10 00000000 r11 00000000\n", REST],
            &["stop: end\n"],
        ],
        errors: "",
    },
    // the console's bytes alone
    Case {
        words: &["s161", "run", "image", "--only-output"],
        program: &SEND_H,
        schedule: "s 0 3\no\n",
        status: 3,
        output: &[&["H"]],
        errors: "stop: end\n",
    },
    // two processors, and one that isn't started yet
    Case {
        words: &["s161", "run", "image", "--cpus", "2"],
        program: &START_OTHER,
        schedule: "s 0 7\ns 1\n",
        status: 3,
        output: &[&TWO, &["stop: end\n"]],
        errors: "",
    },
    Case {
        words: &["s161", "run", "image", "--cpus=2", "--show-log"],
        program: &START_OTHER,
        schedule: "s 0 5\ns 1\ns 0\n",
        status: 3,
        output: &[
            &ONE,
            &[
                START_OTHER_MACHINE,
                "m161 log 2 word\ns 0 ran\ns 0 ran\ns 0 ran\ns 0 ran\ns 0 ran\n",
            ],
            &["s 1 idle\ns 0 ran\nstop: end\n"],
        ],
        errors: "",
    },
    // numbers as clap reads them
    Case {
        words: &["s161", "run", "image", "--ram", "+0004096"],
        program: &POWER_OFF,
        schedule: "",
        status: 3,
        output: &[&[AT_ENTRY, "stop: end\n"]],
        errors: "",
    },
];

static FAULTS: [Case; 8] = [
    Case {
        words: &["s161", "run", "other"],
        program: &POWER_OFF,
        schedule: "bad\n",
        status: 1,
        output: &[],
        errors: "s161: file other (the file can't be read)\n",
    },
    // a schedule's fault comes before the machine's
    Case {
        words: &["s161", "run", "image", "--ram", "4097"],
        program: &POWER_OFF,
        schedule: "s 0\n\ns 0 0\n",
        status: 1,
        output: &[],
        errors: "s161: schedule line 3 (a line is s P, s P N, k HH, o, blank or # ..)\n",
    },
    Case {
        words: &["s161", "run", "image", "--ram", "4097"],
        program: &POWER_OFF,
        schedule: "s 0 2\n",
        status: 1,
        output: &[],
        errors: "s161: conf (RAM has 1 to 4096 pages of 4096 bytes, there are 1 to 32 processors, and a log has 1 to 16777216 entries)\n",
    },
    Case {
        words: &["s161", "run", "image", "--cpus", "33"],
        program: &POWER_OFF,
        schedule: "",
        status: 1,
        output: &[],
        errors: "s161: conf (RAM has 1 to 4096 pages of 4096 bytes, there are 1 to 32 processors, and a log has 1 to 16777216 entries)\n",
    },
    Case {
        words: &["s161", "run", "image", "--log", "0"],
        program: &POWER_OFF,
        schedule: "",
        status: 1,
        output: &[],
        errors: "s161: conf (RAM has 1 to 4096 pages of 4096 bytes, there are 1 to 32 processors, and a log has 1 to 16777216 entries)\n",
    },
    // no segment fits so little RAM
    Case {
        words: &["s161", "run", "image", "--ram", "4096"],
        program: &[0; 1000],
        schedule: "",
        status: 1,
        output: &[],
        errors: "s161: image 7 SegmentOutsideRam (program header 0, 4000 bytes from 80000200 on, not all in RAM of 4096 bytes in kseg0 or kseg1)\n",
    },
    Case {
        words: &["s161", "run", "image", "--ram", "0"],
        program: &POWER_OFF,
        schedule: "",
        status: 1,
        output: &[],
        errors: "s161: conf (RAM has 1 to 4096 pages of 4096 bytes, there are 1 to 32 processors, and a log has 1 to 16777216 entries)\n",
    },
    Case {
        words: &["s161", "run", "image"],
        program: &POWER_OFF,
        schedule: "s 0 2\r\n",
        status: 1,
        output: &[],
        errors: "s161: schedule line 1 (a line is s P, s P N, k HH, o, blank or # ..)\n",
    },
];

#[test]
fn stops(rt: HostRuntime) -> Result<(), Fail> {
    check(&rt, &STOPS)
}

#[test]
fn windows(rt: HostRuntime) -> Result<(), Fail> {
    check(&rt, &WINDOWS)
}

#[test]
fn empty_schedule(rt: HostRuntime) -> Result<(), Fail> {
    check(&rt, &EMPTY_SCHEDULES)
}

#[test]
fn outputs(rt: HostRuntime) -> Result<(), Fail> {
    check(&rt, &OUTPUTS)
}

#[test]
fn faults(rt: HostRuntime) -> Result<(), Fail> {
    check(&rt, &FAULTS)
}

static THREADED: [Case; 11] = [
    // threads-command
    Case {
        words: &["s161", "run", "image", "--cpus", "2", "--threads", "5"],
        program: &POWER_OFF,
        schedule: "",
        status: 0,
        output: &[&POWERED_OFF, &["stop: off\n"]],
        errors: "",
    },
    Case {
        words: &["s161", "run", "image", "--cpus", "2", "--threads", "100"],
        program: &STAND_STILL,
        schedule: "",
        status: 3,
        output: &[&[AT_ENTRY, "stop: end\n"]],
        errors: "",
    },
    // a schedule isn't read
    Case {
        words: &["s161", "run", "--threads=2", "image", "--cpus=2"],
        program: &STAND_STILL,
        schedule: "no schedule",
        status: 3,
        output: &[&[AT_ENTRY, "stop: end\n"]],
        errors: "",
    },
    Case {
        words: &["s161", "run", "image", "--threads", "0"],
        program: &POWER_OFF,
        schedule: "s 0 2",
        status: 0,
        output: &[&POWERED_OFF, &["stop: off\n"]],
        errors: "",
    },
    // other numbers of processors than two
    Case {
        words: &["s161", "run", "image", "--threads", "5", "--show-log"],
        program: &POWER_OFF,
        schedule: "",
        status: 0,
        output: &[
            &POWERED_OFF,
            &[
                POWER_OFF_MACHINE,
                "m161 log 2 word\ns 0 ran\ns 0 off\n",
                "stop: off\n",
            ],
        ],
        errors: "",
    },
    Case {
        words: &["s161", "run", "image", "--threads=2", "--cpus=32"],
        program: &STAND_STILL,
        schedule: "",
        status: 3,
        output: &[&[AT_ENTRY, "stop: end\n"]],
        errors: "",
    },
    // a log that keeps fewer entries than Steps are made
    Case {
        words: &["s161", "run", "image", "--cpus=2", "--threads=6", "--log=9"],
        program: &STAND_STILL,
        schedule: "",
        status: 3,
        output: &[&[AT_ENTRY, "stop: end\n"]],
        errors: "",
    },
    // bursts: with one processor there is one order
    Case {
        words: &[
            "s161",
            "run",
            "image",
            "--threads=100",
            "--burst=7",
            "--cpus=3",
        ],
        program: &STAND_STILL,
        schedule: "",
        status: 3,
        output: &[&[AT_ENTRY, "stop: end\n"]],
        errors: "",
    },
    Case {
        words: &[
            "s161",
            "run",
            "image",
            "--threads=4",
            "--burst=1024",
            "--log=2",
            "--show-log",
        ],
        program: &STAND_STILL,
        schedule: "",
        status: 3,
        output: &[
            &[AT_ENTRY],
            &[
                STAND_STILL_MACHINE,
                "m161 tail 2 word 2\ns 0 ran\ns 0 ran\n",
                "stop: end\n",
            ],
        ],
        errors: "",
    },
    // without threads they have no effect
    Case {
        words: &["s161", "run", "image", "--burst", "5"],
        program: &POWER_OFF,
        schedule: "s 0 2",
        status: 0,
        output: &[&POWERED_OFF, &["stop: off\n"]],
        errors: "",
    },
    Case {
        words: &["s161", "run", "image", "--burst=5", "--threads=0"],
        program: &POWER_OFF,
        schedule: "s 0",
        status: 3,
        output: &[&HALF_WAY, &["stop: end\n"]],
        errors: "",
    },
];

#[test]
fn threads_command(rt: HostRuntime) -> Result<(), Fail> {
    check(&rt, &THREADED)
}
