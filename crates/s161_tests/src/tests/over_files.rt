//! `replay` and `debug`: an image with a log or a schedule, and what is printed; `run`, `trace` and `audit`
//! over a log.

use super::run::{POWER_OFF, REST, START_OTHER, ZEROS, join, work_over};
use super::same;
use super::streams::{Failing, Memory, TwoFiles, all};
use super::units::LINKED;
use m161_test_support::files::file_at;
use m161_test_support::outcomes::ENTRY;
use s161_progress::Progress;
use s161_work::work::work;
use std::io::ErrorKind;
use std::process::Abort;
use std::sync::Wait;
use std::test::Fail;
use std::thread::Threads;

/// A loop: `addiu $8, $8, 1`, `beq $0, $0, 0x80000200`, `nop`.
const LOOP: [u32; 3] = [0x2508_0001, 0x1000_fffe, 0x0000_0000];

/// The log of seven Steps of `LINKED` where links are to words, without the first line.
const SEVEN: &str = "s 0 ran\ns 0 ran\ns 0 ran\ns 0 ran\ns 0 ran\ns 0 ran\ns 0 ran\n";

/// A log of `power-off`'s run.
const LOG: &str = "m161 log 2 word\ns 0 ran\ns 0 off\n";

/// A run of two processors.
const TWO: &str = "m161 log 2 word
s 0 ran
s 0 ran
s 0 ran
s 0 ran
s 0 ran
s 1 idle
s 0 ran
";

/// The same behind its machine line. The SHA-256 is that of Python's hashlib.
const TWO_WITH_MACHINE: &str =
    "# machine 1048576 2 e6ec51dc5abde77f019250c2dec06f12480265fd72b4cf0d3bd9748e203fc382
m161 log 2 word
s 0 ran
s 0 ran
s 0 ran
s 0 ran
s 0 ran
s 1 idle
s 0 ran
";

/// A command over the files `image` and `text`, and what it leaves.
pub(crate) struct Case {
    pub(crate) words: &'static [&'static str],
    pub(crate) program: &'static [u32],
    pub(crate) text: &'static [&'static str],
    pub(crate) input: &'static str,
    pub(crate) status: u8,
    pub(crate) output: &'static [&'static str],
    pub(crate) errors: &'static str,
}

/// Runs the cases, and fails the test at the first that leaves something else.
pub(crate) fn check(
    rt: &(impl Abort + AllocGlobal + Threads + Wait + Sync),
    cases: &[Case],
) -> Result<(), Fail> {
    for case in cases {
        let image = file_at(rt.alloc(), ENTRY, case.program)?;
        let text = join(rt, &[case.text])?;
        let mut files = TwoFiles {
            image: &image,
            text: text.as_bytes(),
        };
        let output = join(rt, &[case.output])?;
        let texts = [output.as_str(), case.errors];
        let mut input = case.input.as_bytes();
        let found = work_over(rt, case.words, &mut files, &mut input, texts);
        let expected = (case.status, all(texts[0]), all(texts[1]));
        same(rt, (text.as_str(), found), (text.as_str(), expected));
    }
    Ok(())
}

static VERDICTS: [Case; 10] = [
    Case {
        words: &["s161", "replay", "image", "text"],
        program: &POWER_OFF,
        text: &[LOG],
        input: "",
        status: 0,
        output: &["agrees\n"],
        errors: "",
    },
    Case {
        words: &["s161", "replay", "image", "text"],
        program: &POWER_OFF,
        text: &["m161 log 2 word\ns 0 ran\ns 0 ran\n"],
        input: "",
        status: 4,
        output: &["differs 1\n"],
        errors: "",
    },
    Case {
        words: &["s161", "replay", "image", "text"],
        program: &POWER_OFF,
        text: &["m161 log 2 word\ns 0 ran\ns 0 off\ns 0 ran"],
        input: "",
        status: 4,
        output: &["differs 2\n"],
        errors: "",
    },
    // the logs of runs
    Case {
        words: &["s161", "replay", "image", "text"],
        program: &POWER_OFF,
        text: &["m161 log 2 word"],
        input: "not read",
        status: 0,
        output: &["agrees\n"],
        errors: "",
    },
    Case {
        words: &["s161", "replay", "image", "text"],
        program: &POWER_OFF,
        text: &["m161 log 2 word\nk 41 taken\ns 0 ran\ns 0 off\n"],
        input: "",
        status: 0,
        output: &["agrees\n"],
        errors: "",
    },
    Case {
        words: &["s161", "replay", "image", "text", "--cpus=2"],
        program: &START_OTHER,
        text: &[TWO],
        input: "",
        status: 0,
        output: &["agrees\n"],
        errors: "",
    },
    // the log's machine
    Case {
        words: &["s161", "replay", "image", "text"],
        program: &START_OTHER,
        text: &[TWO_WITH_MACHINE],
        input: "",
        status: 0,
        output: &["agrees\n"],
        errors: "",
    },
    // format 1
    Case {
        words: &["s161", "replay", "image", "text"],
        program: &POWER_OFF,
        text: &["m161 log 1\ns 0 ran\ns 0 off\n"],
        input: "",
        status: 0,
        output: &["agrees\n"],
        errors: "",
    },
    // one processor; a log that is longer than the machine's
    Case {
        words: &["s161", "replay", "image", "text"],
        program: &START_OTHER,
        text: &[TWO],
        input: "",
        status: 4,
        output: &["differs 5\n"],
        errors: "",
    },
    Case {
        words: &["s161", "replay", "--log", "1", "image", "text"],
        program: &POWER_OFF,
        text: &[LOG],
        input: "",
        status: 0,
        output: &["agrees\n"],
        errors: "",
    },
];

static REPLAY_FAULTS: [Case; 10] = [
    Case {
        words: &["s161", "replay", "other", "none"],
        program: &POWER_OFF,
        text: &[""],
        input: "",
        status: 1,
        output: &[],
        errors: "s161: file other (the file can't be read)\n",
    },
    Case {
        words: &["s161", "replay", "image", "none"],
        program: &POWER_OFF,
        text: &[""],
        input: "",
        status: 1,
        output: &[],
        errors: "s161: file none (the file can't be read)\n",
    },
    // another machine than the log's, and another image
    Case {
        words: &["s161", "replay", "image", "text", "--cpus=1"],
        program: &POWER_OFF,
        text: &[TWO_WITH_MACHINE],
        input: "",
        status: 1,
        output: &[],
        errors: "s161: log machine (an option that is given isn't that of the log's machine)\n",
    },
    Case {
        words: &["s161", "replay", "image", "text"],
        program: &POWER_OFF,
        text: &[TWO_WITH_MACHINE],
        input: "",
        status: 1,
        output: &[],
        errors: "s161: log image (the log is that of another image)\n",
    },
    // no UTF-8
    Case {
        words: &["s161", "replay", "image", "image"],
        program: &POWER_OFF,
        text: &[""],
        input: "",
        status: 1,
        output: &[],
        errors: "s161: file image (the file isn't UTF-8)\n",
    },
    Case {
        words: &["s161", "replay", "image", "text"],
        program: &POWER_OFF,
        text: &[""],
        input: "",
        status: 1,
        output: &[],
        errors: "s161: log line 1 (after m161 log 2 word, m161 log 2 line or m161 log 1 a line is s P ran, s P trap CODE VECTOR, s P idle, s P off, k HH taken or o taken; after m161 log 3 word strict or m161 log 3 line strict also s P conflict I J)\n",
    },
    // the end of a log
    Case {
        words: &["s161", "replay", "image", "text"],
        program: &POWER_OFF,
        text: &["m161 tail 2 word 1\ns 0 off\n"],
        input: "",
        status: 1,
        output: &[],
        errors: "s161: log line 1 (after m161 log 2 word, m161 log 2 line or m161 log 1 a line is s P ran, s P trap CODE VECTOR, s P idle, s P off, k HH taken or o taken; after m161 log 3 word strict or m161 log 3 line strict also s P conflict I J)\n",
    },
    // a log's fault comes before the machine's
    Case {
        words: &["s161", "replay", "image", "text", "--ram", "4097"],
        program: &POWER_OFF,
        text: &["m161 log 2 word\ns 0 ran\n\n"],
        input: "",
        status: 1,
        output: &[],
        errors: "s161: log line 3 (after m161 log 2 word, m161 log 2 line or m161 log 1 a line is s P ran, s P trap CODE VECTOR, s P idle, s P off, k HH taken or o taken; after m161 log 3 word strict or m161 log 3 line strict also s P conflict I J)\n",
    },
    Case {
        words: &["s161", "replay", "image", "text", "--ram", "4097"],
        program: &POWER_OFF,
        text: &[LOG],
        input: "",
        status: 1,
        output: &[],
        errors: "s161: conf (RAM has 1 to 4096 pages of 4096 bytes, there are 1 to 32 processors, and a log has 1 to 16777216 entries)\n",
    },
    Case {
        words: &["s161", "replay", "text", "text"],
        program: &POWER_OFF,
        text: &[LOG],
        input: "",
        status: 1,
        output: &[],
        errors: "s161: image 1 Truncated (the file is shorter than an ELF header)\n",
    },
];

static COMMANDS: [Case; 6] = [
    // breakpoints, debugger-commands
    Case {
        words: &["s161", "debug", "image", "text", "--cpus", "2"],
        program: &LOOP,
        text: &["s 0 7\n"],
        input: "b 0 80000200\ng\ng 2\ng\ng\ng\nr 0\n",
        status: 0,
        output: &[
            "break 0 80000200\nbreak 3\nend 2\nbreak 1\nend 1\nend 0\n",
            "cpu 0 running pc 80000204\n",
            ZEROS,
            "r8 00000003 r9 00000000 r10 00000000 r11 00000000\n",
            REST,
        ],
        errors: "",
    },
    Case {
        words: &["s161", "debug", "image", "text", "--cpus", "2"],
        program: &LOOP,
        text: &["s 0 7\n"],
        input: "b 1 80000200\ng\nd 1 80000200\nd 1 80000200",
        status: 0,
        output: &["break 1 80000200\nend 7\ndeleted\nnone\n"],
        errors: "",
    },
    // events that aren't the schedule's leave it as it is
    Case {
        words: &["s161", "debug", "image", "text"],
        program: &LOOP,
        text: &["s 0\nk 41\n"],
        input: "s 0\ng 1\nx 80000204 1\nm 00000200 1\ng\nk 42\no\n",
        status: 0,
        output: &[
            "s 0 ran\nend 1\n80000204 1000fffe beq $0, $0, 0x80000200\n",
            "00000200 25080001\nend 1\nk 42 taken\nrefused 5 NothingSent\n",
        ],
        errors: "",
    },
    // errors, and a refused event, leave the status at 0
    Case {
        words: &["s161", "debug", "image", "text"],
        program: &POWER_OFF,
        text: &["s 0 3\n"],
        input: "\nz\nr 00\nr 1\ng 2\ng\ng\n",
        status: 0,
        output: &[
            "? Unknown\n? BadArgument\n? BadProcessor\n",
            "off 1\nrefused 0 2 Off\nend 0\n",
        ],
        errors: "s161: note command (there is none of this name; help lists them)\ns161: note r (a processor, and for one register its number, below 32)\n",
    },
    // dropped-entry
    Case {
        words: &["s161", "debug", "image", "text", "--log", "1"],
        program: &POWER_OFF,
        text: &["s 0 3\n"],
        input: "l 5\ng\r\ng\nl 5\nl 0\ng\n",
        status: 0,
        output: &["? Unknown\noff 1\ns 0 off\n? BadArgument\nrefused 0 2 Off\n"],
        errors: "s161: note command (there is none of this name; help lists them)\ns161: note l (how many entries, 1 to 1024)\n",
    },
    Case {
        words: &["s161", "debug", "image", "text"],
        program: &POWER_OFF,
        text: &[""],
        input: "",
        status: 0,
        output: &[],
        errors: "",
    },
];

static DEBUG_FAULTS: [Case; 5] = [
    Case {
        words: &["s161", "debug", "other", "none"],
        program: &POWER_OFF,
        text: &[""],
        input: "",
        status: 1,
        output: &[],
        errors: "s161: file other (the file can't be read)\n",
    },
    Case {
        words: &["s161", "debug", "image", "none"],
        program: &POWER_OFF,
        text: &[""],
        input: "",
        status: 1,
        output: &[],
        errors: "s161: file none (the file can't be read)\n",
    },
    // nothing is printed of the commands before a fault
    Case {
        words: &["s161", "debug", "image", "text", "--cpus", "0"],
        program: &POWER_OFF,
        text: &["s 0\ns 0 0\n"],
        input: "g\n",
        status: 1,
        output: &[],
        errors: "s161: schedule line 2 (a line is s P, s P N, k HH, o, blank or # ..)\n",
    },
    Case {
        words: &["s161", "debug", "image", "text", "--cpus", "0"],
        program: &POWER_OFF,
        text: &["s 0\n"],
        input: "g\n",
        status: 1,
        output: &[],
        errors: "s161: conf (RAM has 1 to 4096 pages of 4096 bytes, there are 1 to 32 processors, and a log has 1 to 16777216 entries)\n",
    },
    Case {
        words: &["s161", "debug", "text", "text"],
        program: &POWER_OFF,
        text: &["s 0\n"],
        input: "g\n",
        status: 1,
        output: &[],
        errors: "s161: image 1 Truncated (the file is shorter than an ELF header)\n",
    },
];

/// The unit of links that a log names, or that is given.
static UNITS: [Case; 13] = [
    // line-replay
    Case {
        words: &["s161", "replay", "image", "text"],
        program: &LINKED,
        text: &["m161 log 1\n", SEVEN],
        input: "",
        status: 0,
        output: &["agrees\n"],
        errors: "",
    },
    Case {
        words: &["s161", "replay", "image", "text"],
        program: &LINKED,
        text: &["m161 log 2 word\n", SEVEN],
        input: "",
        status: 0,
        output: &["agrees\n"],
        errors: "",
    },
    Case {
        words: &["s161", "replay", "image", "text"],
        program: &LINKED,
        text: &["m161 log 2 line\n", SEVEN],
        input: "",
        status: 4,
        output: &["differs 6\n"],
        errors: "",
    },
    // debug over a log, with the unit of its first line given or not
    Case {
        words: &["s161", "debug", "image", "text"],
        program: &LINKED,
        text: &["m161 log 1\n", SEVEN],
        input: "g\nl 1\n",
        status: 0,
        output: &["end 7\ns 0 ran\n"],
        errors: "",
    },
    Case {
        words: &["s161", "debug", "image", "text"],
        program: &LINKED,
        text: &["m161 log 2 line\n", SEVEN],
        input: "g\nl 1\n",
        status: 0,
        output: &["end 7\ns 0 trap 9 80000080\n"],
        errors: "",
    },
    Case {
        words: &["s161", "debug", "image", "text", "--link", "line"],
        program: &LINKED,
        text: &["m161 log 2 line\n", SEVEN],
        input: "g\nl 1\n",
        status: 0,
        output: &["end 7\ns 0 trap 9 80000080\n"],
        errors: "",
    },
    // another unit than the log's, whose machine line comes after it
    Case {
        words: &["s161", "debug", "image", "text", "--link", "word"],
        program: &LINKED,
        text: &["m161 log 2 line\n", SEVEN],
        input: "g\n",
        status: 1,
        output: &[],
        errors: "s161: log machine (an option that is given isn't that of the log's machine)\n",
    },
    Case {
        words: &["s161", "debug", "image", "text", "--link=line"],
        program: &LINKED,
        text: &["m161 log 1\n", SEVEN],
        input: "g\n",
        status: 1,
        output: &[],
        errors: "s161: log machine (an option that is given isn't that of the log's machine)\n",
    },
    Case {
        words: &["s161", "debug", "image", "text", "--link=line"],
        program: &LINKED,
        text: &[TWO_WITH_MACHINE],
        input: "g\n",
        status: 1,
        output: &[],
        errors: "s161: log machine (an option that is given isn't that of the log's machine)\n",
    },
    // a schedule without a machine line names no unit
    Case {
        words: &["s161", "debug", "image", "text"],
        program: &LINKED,
        text: &["s 0 7\n"],
        input: "g\nl 1\n",
        status: 0,
        output: &["end 7\ns 0 ran\n"],
        errors: "",
    },
    Case {
        words: &["s161", "debug", "image", "text", "--link", "line"],
        program: &LINKED,
        text: &["s 0 7\n"],
        input: "g\nl 1\n",
        status: 0,
        output: &["end 7\ns 0 trap 9 80000080\n"],
        errors: "",
    },
    // its machine line does, where none is given
    Case {
        words: &["s161", "debug", "image", "text"],
        program: &LINKED,
        text: &["# machine 1048576 1 line\ns 0 7\n"],
        input: "g\nl 1\n",
        status: 0,
        output: &["end 7\ns 0 trap 9 80000080\n"],
        errors: "",
    },
    Case {
        words: &["s161", "debug", "image", "text", "--link", "word"],
        program: &LINKED,
        text: &["# machine 1048576 1 line\ns 0 7\n"],
        input: "g\nl 1\n",
        status: 0,
        output: &["end 7\ns 0 ran\n"],
        errors: "",
    },
];

/// A log on standard input, in the place of a schedule.
static LOGS: [Case; 10] = [
    Case {
        words: &["s161", "run", "image"],
        program: &START_OTHER,
        text: &[""],
        input: TWO_WITH_MACHINE,
        status: 3,
        output: &[
            "cpu 0 running pc 80000218\n",
            ZEROS,
            "r8 bfff0000 r9 80000220 r10 bfff8700 r11 00000002\n",
            REST,
            "stop: end\n",
        ],
        errors: "",
    },
    Case {
        words: &["s161", "run", "image", "--cpus=2"],
        program: &START_OTHER,
        text: &[""],
        input: TWO_WITH_MACHINE,
        status: 3,
        output: &[
            "cpu 0 running pc 80000218\n",
            ZEROS,
            "r8 bfff0000 r9 80000220 r10 bfff8700 r11 00000002\n",
            REST,
            "stop: end\n",
        ],
        errors: "",
    },
    Case {
        words: &["s161", "audit", "image", "text"],
        program: &START_OTHER,
        text: &["w 5 00400 00003000 00003004\n"],
        input: TWO_WITH_MACHINE,
        status: 0,
        output: &["clean\n"],
        errors: "",
    },
    Case {
        words: &["s161", "trace", "image", "--from=6"],
        program: &LINKED,
        text: &[""],
        input: "m161 log 2 line\ns 0 ran\ns 0 ran\ns 0 ran\ns 0 ran\ns 0 ran\ns 0 ran\ns 0 ran\n",
        status: 3,
        output: &[
            "6 0 80000218 0000000d break  cause=00000024 epc=80000218 trap 9 80000080\nstop: end\n",
        ],
        errors: "",
    },
    // outcomes don't count
    Case {
        words: &["s161", "run", "image"],
        program: &POWER_OFF,
        text: &[""],
        input: "m161 log 2 word\ns 0 ran\ns 0 ran\n",
        status: 0,
        output: &[
            "cpu 0 running pc 80000208\n",
            ZEROS,
            "r8 bfff0000 r9 00000000 r10 00000000 r11 00000000\n",
            REST,
            "stop: off\n",
        ],
        errors: "",
    },
    // another machine than the log's, another image, and a bad line
    Case {
        words: &["s161", "run", "image", "--cpus=1"],
        program: &START_OTHER,
        text: &[""],
        input: TWO_WITH_MACHINE,
        status: 1,
        output: &[],
        errors: "s161: log machine (an option that is given isn't that of the log's machine)\n",
    },
    Case {
        words: &["s161", "trace", "image", "--strict"],
        program: &START_OTHER,
        text: &[""],
        input: TWO_WITH_MACHINE,
        status: 1,
        output: &[],
        errors: "s161: log machine (an option that is given isn't that of the log's machine)\n",
    },
    Case {
        words: &["s161", "audit", "image", "text", "--link=line"],
        program: &START_OTHER,
        text: &[""],
        input: TWO_WITH_MACHINE,
        status: 1,
        output: &[],
        errors: "s161: log machine (an option that is given isn't that of the log's machine)\n",
    },
    Case {
        words: &["s161", "run", "image"],
        program: &POWER_OFF,
        text: &[""],
        input: TWO_WITH_MACHINE,
        status: 1,
        output: &[],
        errors: "s161: log image (the log is that of another image)\n",
    },
    Case {
        words: &["s161", "run", "image", "--cpus=33"],
        program: &POWER_OFF,
        text: &[""],
        input: "m161 log 2 word\ns 0 went\n",
        status: 1,
        output: &[],
        errors: "s161: log line 2 (after m161 log 2 word, m161 log 2 line or m161 log 1 a line is s P ran, s P trap CODE VECTOR, s P idle, s P off, k HH taken or o taken; after m161 log 3 word strict or m161 log 3 line strict also s P conflict I J)\n",
    },
];

#[test]
fn logs_as_schedules(rt: HostRuntime) -> Result<(), Fail> {
    check(&rt, &LOGS)
}

#[test]
fn line_replay(rt: HostRuntime) -> Result<(), Fail> {
    check(&rt, &UNITS)
}

#[test]
fn verify_by_replay(rt: HostRuntime) -> Result<(), Fail> {
    check(&rt, &VERDICTS)
}

#[test]
fn replay_faults(rt: HostRuntime) -> Result<(), Fail> {
    check(&rt, &REPLAY_FAULTS)
}

#[test]
fn commands(rt: HostRuntime) -> Result<(), Fail> {
    check(&rt, &COMMANDS)
}

#[test]
fn debug_faults(rt: HostRuntime) -> Result<(), Fail> {
    check(&rt, &DEBUG_FAULTS)
}

#[test]
fn commands_that_are_not_read(rt: HostRuntime) -> Result<(), Fail> {
    let image = file_at(rt.alloc(), ENTRY, &POWER_OFF)?;
    let words = ["s161", "debug", "image", "text"];
    let line = "s161: input (standard input isn't UTF-8)\n";
    // the commands before that line are answered
    let mut files = TwoFiles {
        image: &image,
        text: b"s 0 3\n",
    };
    let mut input: &[u8] = b"g\n\xff\ng\n";
    let found = work_over(&rt, &words, &mut files, &mut input, ["off 1\n", line]);
    same(&rt, found, (1, all("off 1\n"), all(line)));
    let line = "s161: input (standard input can't be read)\n";
    let mut input = Failing(ErrorKind::BrokenPipe);
    let found = work_over(&rt, &words, &mut files, &mut input, ["", line]);
    same(&rt, found, (1, all(""), all(line)));
    Ok(())
}

#[test]
fn rejected_words(rt: HostRuntime) -> Result<(), Fail> {
    let image = file_at(rt.alloc(), ENTRY, &POWER_OFF)?;
    let cases: [&[&str]; 8] = [
        &["s161", "replay", "image"],
        &["s161", "replay", "image", "text", "text"],
        &["s161", "replay", "image", "text", "--show-log"],
        &["s161", "replay", "image", "text", "--link", "word"],
        &["s161", "debug", "image", "text", "--link", "half"],
        &["s161", "debug"],
        &["s161", "debug", "image"],
        &["s161", "debug", "image", "text", "--ram", "x"],
    ];
    for words in cases {
        let mut files = TwoFiles {
            image: &image,
            text: LOG.as_bytes(),
        };
        let mut input: &[u8] = &[];
        let (status, output, _) = work_over(&rt, words, &mut files, &mut input, ["", ""]);
        same(&rt, (words, status, output), (words, 2, all("")));
    }
    Ok(())
}

#[test]
fn failing_output_of_a_verdict(rt: HostRuntime) -> Result<(), Fail> {
    let image = file_at(rt.alloc(), ENTRY, &POWER_OFF)?;
    let failed = "s161: output\n";
    for room in [0, 6] {
        let mut files = TwoFiles {
            image: &image,
            text: LOG.as_bytes(),
        };
        let mut input: &[u8] = &[];
        let mut output = Memory::new(rt.alloc(), room, true);
        let mut errors = Memory::new(rt.alloc(), usize::MAX, true);
        let status = work(
            &rt,
            &["s161", "replay", "image", "text"],
            &mut files,
            &mut input,
            &mut output,
            &mut errors,
            &Progress::new(),
        );
        let found = (
            status,
            output.match_text("agrees\n"),
            errors.match_text(failed),
        );
        same(&rt, found, (1, (room, true), all(failed)));
    }
    Ok(())
}
