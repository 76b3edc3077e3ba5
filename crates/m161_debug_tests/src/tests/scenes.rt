//! The debugger: sessions as tables of what is done, with stops and texts that were worked out by
//! hand from the machine's rules.

use super::same;
use m161::{Console, Machine, Tlb};
use m161_debug::{BreakError, CommandError, StopReason};
use m161_elf::is_in_ram;
use m161_isa::{LinkUnit, Reg};
use m161_machine::Event::{Done, Key, Step};
use m161_machine::{Conf, Event, Refusal};
use m161_test_support::files::file_from;
use m161_test_support::outcomes::{Answer, ENTRY, RAN, TAKEN};
use s161_base::sample::sample_image;
use std::alloc::Global;
use std::process::Abort;
use std::test::Fail;

type Session = m161_debug::Session<Tlb, Console>;

/// A display of processor 0, of an address and a number of words, or of a number of entries.
enum Display {
    Regs,
    Cop0,
    Tlb,
    Mem(u32, u32),
    Code(u32, u32),
    Log(usize),
}

/// What is done to a session, and what it answers.
enum Act {
    /// A breakpoint is set.
    Set(u32, u32, Result<(), BreakError>),
    /// One is deleted.
    Delete(u32, u32, bool),
    /// An event is made.
    Make(Event, Answer),
    /// Events are run over.
    Go(&'static [Event], StopReason),
    /// A command is done on the events that are left, and prints this.
    Line(&'static str, &'static [Event], usize, &'static str),
    /// A line is no command, or one with a fault.
    Bad(&'static str, CommandError),
    /// A command's text begins and ends with these.
    Shows(&'static str, &'static str, &'static str),
    /// A display by its own call begins and ends with these.
    Displays(Display, &'static str, &'static str),
    /// A general register of processor 0, by its number.
    Register(u8, u32),
}

use Act::{Bad, Delete, Displays, Go, Line, Make, Register, Set, Shows};

/// A session on a machine of 4,096 bytes.
struct Scene {
    name: &'static str,
    processors: u32,
    entry: u32,
    words: &'static [u32],
    acts: &'static [Act],
}

/// A loop: `addiu $8, $8, 1`, `beq $0, $0, 0x80000200`, `nop`.
const LOOP: &[u32] = &[0x2508_0001, 0x1000_fffe, 0x0000_0000];

/// `lui $8, 0xbfff`, `sw $0, 32264($8)`.
const POWER_OFF: &[u32] = &[0x3c08_bfff, 0xad00_7e08];

/// `lui $8, 0xbfe0`, `sw $8, 0($8)`: a byte for the console.
const SEND: &[u32] = &[0x3c08_bfe0, 0xad08_0000];

/// What `show_tlb` begins and ends with at the start, and `show_cop0`.
const FIRST_ROWS: &str = "00 80000000 00000000\n01 80001000 00000000\n";

const LAST_ROW: &str = "\n63 8003f000 00000000\n";

const INDEX_AND_RANDOM: &str = "index 00000000\nrandom 00003f00\n";

const PRID: &str = "\nprid 000000a1\n";

const SEVEN: &[Event] = &[Step(0); 7];

const FOUR: &[Event] = &[Step(0); 4];

const ONE: &[Event] = &[Step(0); 1];

static SCENES: [Scene; 16] = [
    Scene {
        name: "breakpoints",
        processors: 2,
        entry: ENTRY,
        words: LOOP,
        acts: &[
            Set(0, ENTRY, Ok(())),
            Go(SEVEN, StopReason::Break(3)),
            Register(8, 1),
            Shows("r 0", "cpu 0 running pc 80000200\n", " lo 00000000\n"),
            Go(FOUR, StopReason::Break(3)),
            Register(8, 2),
            Go(ONE, StopReason::End(1)),
            Register(8, 3),
        ],
    },
    Scene {
        name: "breakpoints: of another processor alone",
        processors: 2,
        entry: ENTRY,
        words: LOOP,
        acts: &[Set(1, ENTRY, Ok(())), Go(SEVEN, StopReason::End(7))],
    },
    Scene {
        name: "breakpoints: in a delay slot alone",
        processors: 2,
        entry: ENTRY,
        words: LOOP,
        acts: &[
            Set(0, 0x8000_0208, Ok(())),
            Go(SEVEN, StopReason::Break(2)),
            Displays(
                Display::Regs,
                "cpu 0 running pc 80000208 slot\nr0 00000000 ",
                "\nhi 00000000 lo 00000000\n",
            ),
        ],
    },
    Scene {
        name: "breakpoints: of another processor, then in a delay slot",
        processors: 2,
        entry: ENTRY,
        words: LOOP,
        acts: &[
            Set(1, ENTRY, Ok(())),
            Go(SEVEN, StopReason::End(7)),
            Delete(1, ENTRY, true),
            Delete(1, ENTRY, false),
            Set(0, 0x8000_0208, Ok(())),
            Go(SEVEN, StopReason::Break(1)),
            Shows("r 0", "cpu 0 running pc 80000208 slot\nr0 00000000 ", "\n"),
        ],
    },
    Scene {
        name: "a stopped processor, one that isn't there",
        processors: 2,
        entry: ENTRY,
        words: LOOP,
        acts: &[
            Set(1, 0, Ok(())),
            Set(2, 0, Err(BreakError::BadProcessor)),
            Go(&[Step(1), Step(0), Step(1)], StopReason::Break(2)),
            Delete(1, 0, true),
            Go(
                &[Step(1), Step(2)],
                StopReason::Refused(1, Refusal::BadProcessor),
            ),
        ],
    },
    Scene {
        name: "displays",
        processors: 1,
        entry: ENTRY,
        words: POWER_OFF,
        acts: &[
            Displays(
                Display::Mem(0x200, 2),
                "00000200 3c08bfff\n",
                "00000204 ad007e08\n",
            ),
            Displays(
                Display::Code(ENTRY, 2),
                "80000200 3c08bfff lui $8, 0xbfff\n",
                "80000204 ad007e08 sw $0, 32264($8)\n",
            ),
            Displays(Display::Tlb, FIRST_ROWS, LAST_ROW),
            Displays(Display::Cop0, INDEX_AND_RANDOM, PRID),
            Displays(
                Display::Regs,
                "cpu 0 running pc 80000200\nr0 00000000 ",
                "\nhi 00000000 lo 00000000\n",
            ),
            Shows("t 0", FIRST_ROWS, LAST_ROW),
            Shows("c 0", INDEX_AND_RANDOM, PRID),
            Line("m 00000200 1", &[], 0, "00000200 3c08bfff\n"),
            Bad("q", CommandError::Unknown),
        ],
    },
    Scene {
        name: "displays: a byte sent by a step",
        processors: 1,
        entry: ENTRY,
        words: SEND,
        acts: &[Make(Step(0), RAN), Make(Step(0), RAN), Make(Done, TAKEN)],
    },
    Scene {
        name: "displays: a byte sent by a run",
        processors: 1,
        entry: ENTRY,
        words: SEND,
        acts: &[
            Make(Step(0), RAN),
            Make(Step(0), RAN),
            Go(&[Done], StopReason::End(1)),
        ],
    },
    Scene {
        name: "displays: a byte sent by a command",
        processors: 1,
        entry: ENTRY,
        words: SEND,
        acts: &[
            Make(Step(0), RAN),
            Make(Step(0), RAN),
            Line("o", &[], 0, "o taken\n"),
        ],
    },
    Scene {
        name: "power-off",
        processors: 1,
        entry: ENTRY,
        words: POWER_OFF,
        acts: &[
            Go(SEVEN, StopReason::Off(1)),
            Go(SEVEN, StopReason::Refused(0, Refusal::Off)),
            Go(&[], StopReason::End(0)),
            Line("g", SEVEN, 1, "refused 0 2 Off\n"),
        ],
    },
    Scene {
        name: "power-off by commands",
        processors: 1,
        entry: ENTRY,
        words: POWER_OFF,
        acts: &[
            Line("g 1", SEVEN, 1, "end 1\n"),
            Line("g", SEVEN, 1, "off 0\n"),
            Line("s 0", SEVEN, 0, "refused 2 Off\n"),
        ],
    },
    Scene {
        name: "sent bytes",
        processors: 1,
        entry: ENTRY,
        words: SEND,
        acts: &[
            Make(Step(0), RAN),
            Line("s 0", &[], 0, "s 0 ran\n"),
            Line("o", &[], 0, "o taken\n"),
            Line("o", &[], 0, "refused 5 NothingSent\n"),
            Make(Done, Err(Refusal::NothingSent)),
            Go(
                &[Key(2), Done],
                StopReason::Refused(1, Refusal::NothingSent),
            ),
            Line("g", &[Done], 1, "refused 0 5 NothingSent\n"),
            Line("k 4a", &[], 0, "k 4a taken\n"),
            Make(Key(1), TAKEN),
            Line("s 4294967295", &[], 0, "refused 1 BadProcessor\n"),
        ],
    },
    Scene {
        name: "debugger-commands",
        processors: 2,
        entry: ENTRY,
        words: LOOP,
        acts: &[
            Line("b 0 80000200", &[], 0, "break 0 80000200\n"),
            Line("g", SEVEN, 3, "break 3\n"),
            Line("g 2", FOUR, 2, "end 2\n"),
            Line("g 0", SEVEN, 0, "end 0\n"),
            Line("d 0 80000200", &[], 0, "deleted\n"),
            Line("d 0 80000200", &[], 0, "none\n"),
            Line("d 9 80000200", &[], 0, "none\n"),
            Line("g 99999999999999999999999999", SEVEN, 7, "end 7\n"),
            Line(
                "g",
                &[Step(0), Key(1), Step(2)],
                3,
                "refused 2 1 BadProcessor\n",
            ),
            Shows(
                "m 00000000 1024",
                "00000000 00000000\n00000004 ",
                "\n00000ffc 00000000\n",
            ),
        ],
    },
    Scene {
        name: "code of two words",
        processors: 1,
        entry: 0x8000_0248,
        words: &[0x11e0_fffe, 0x0000_0000],
        acts: &[
            Line(
                "x 80000248 1",
                &[],
                0,
                "80000248 11e0fffe beq $15, $0, 0x80000244\n",
            ),
            Shows(
                "x a0000248 2",
                "a0000248 11e0fffe beq $15, $0, 0xa0000244\n",
                "a000024c 00000000 nop\n",
            ),
        ],
    },
    Scene {
        name: "a trap",
        processors: 1,
        entry: ENTRY,
        words: &[0x0000_000c],
        acts: &[Line("s 0", SEVEN, 0, "s 0 trap 8 80000080\n")],
    },
    Scene {
        name: "the log's last entries",
        processors: 2,
        entry: ENTRY,
        words: LOOP,
        acts: &[
            Line("l 1", SEVEN, 0, ""),
            Make(Step(0), RAN),
            Make(Step(2), Err(Refusal::BadProcessor)),
            Make(Key(0x41), TAKEN),
            Line("s 1", &[], 0, "s 1 idle\n"),
            Line("l 1", SEVEN, 0, "s 1 idle\n"),
            Line("l 2", SEVEN, 0, "k 41 taken\ns 1 idle\n"),
            Line("l 3", SEVEN, 0, "s 0 ran\nk 41 taken\ns 1 idle\n"),
            Line("l 1024", SEVEN, 0, "s 0 ran\nk 41 taken\ns 1 idle\n"),
            Displays(Display::Log(2), "k 41 taken\n", "k 41 taken\ns 1 idle\n"),
            Displays(Display::Log(2000), "s 0 ran\n", "k 41 taken\ns 1 idle\n"),
        ],
    },
];

/// Lines, and why each isn't done on a machine of 4,096 bytes with two processors.
static FAULTS: [(&str, CommandError); 46] = [
    ("", CommandError::Unknown),
    (" r 0", CommandError::Unknown),
    ("q", CommandError::Unknown),
    ("rr 0", CommandError::Unknown),
    ("R 0", CommandError::Unknown),
    ("r", CommandError::BadArgument),
    ("r ", CommandError::BadArgument),
    ("r  0", CommandError::BadArgument),
    ("r 00", CommandError::BadArgument),
    ("r 0 ", CommandError::BadArgument),
    ("r 4294967296", CommandError::BadArgument),
    ("r 2", CommandError::BadProcessor),
    ("c 4294967295", CommandError::BadProcessor),
    ("t 2", CommandError::BadProcessor),
    ("g ", CommandError::BadArgument),
    ("g 01", CommandError::BadArgument),
    ("g +1", CommandError::BadArgument),
    ("g -1", CommandError::BadArgument),
    ("g 1 ", CommandError::BadArgument),
    ("o ", CommandError::BadArgument),
    ("k 4", CommandError::BadArgument),
    ("k 4A", CommandError::BadArgument),
    ("k 041", CommandError::BadArgument),
    ("s 0 0", CommandError::BadArgument),
    ("b 0", CommandError::BadArgument),
    ("b 0 800002000", CommandError::BadArgument),
    ("b 9 x", CommandError::BadArgument),
    ("b 2 80000200", CommandError::BadProcessor),
    ("d 0 8000020g", CommandError::BadArgument),
    ("m 00000200 0", CommandError::BadArgument),
    ("m 00000000 1025", CommandError::BadArgument),
    ("m 00000202 1", CommandError::BadArgument),
    ("m 00000ffc 2", CommandError::BadArgument),
    ("m fffffffc 1", CommandError::BadArgument),
    ("x 00000200 1", CommandError::BadArgument),
    ("x 80000ffc 2", CommandError::BadArgument),
    ("x c0000200 1", CommandError::BadArgument),
    ("x bffffffc 2", CommandError::BadArgument),
    ("l", CommandError::BadArgument),
    ("l ", CommandError::BadArgument),
    ("l 0", CommandError::BadArgument),
    ("l 1025", CommandError::BadArgument),
    ("l 01", CommandError::BadArgument),
    ("l 1 ", CommandError::BadArgument),
    ("l 4294967297", CommandError::BadArgument),
    (" l 1", CommandError::Unknown),
];

fn session(alloc: Global, processors: u32, entry: u32, words: &[u32]) -> Result<Session, Fail> {
    let file = file_from(alloc, entry, entry, words)?;
    session_of(alloc, file, 4_096, processors, 100)
}

/// A session on the machine of a file.
fn session_of(
    alloc: Global,
    file: Vec<u8>,
    ram: u32,
    processors: u32,
    log: u32,
) -> Result<Session, Fail> {
    let conf = Conf {
        ram,
        processors,
        log,
        link: LinkUnit::Word,
        strict: false,
    };
    Ok(Session::new(Machine::boot(alloc, &file, conf)?))
}

/// Does a command behind a text that was there before: what it answers, whether what it appends
/// begins and ends with these texts, and how long that is.
fn command(
    alloc: Global,
    session: &mut Session,
    line: &str,
    rest: &[Event],
    first: &str,
    last: &str,
) -> Result<(Result<usize, CommandError>, bool, usize), Fail> {
    let mut text = String::from_str(alloc, "before\n")?;
    let answer = session.command(line, rest, &mut text);
    Ok(match text.strip_prefix("before\n") {
        Some(text) => (
            answer,
            text.starts_with(first) && text.ends_with(last),
            text.len(),
        ),
        None => (answer, false, 0),
    })
}

/// Does an act, and fails the test where it answers otherwise.
fn check_act(
    rt: &(impl Abort + AllocGlobal),
    name: &str,
    session: &mut Session,
    act: &Act,
) -> Result<(), Fail> {
    match act {
        Set(p, at, answer) => same(rt, (name, session.breakpoint(*p, *at)), (name, *answer)),
        Delete(p, at, answer) => same(rt, (name, session.delete(*p, *at)), (name, *answer)),
        Make(event, answer) => same(rt, (name, session.step(*event)), (name, *answer)),
        Go(events, stop) => same(rt, (name, session.go(events)), (name, *stop)),
        Line(line, rest, used, text) => {
            let found = command(rt.alloc(), session, line, rest, text, text)?;
            same(
                rt,
                (name, *line, found),
                (name, *line, (Ok(*used), true, text.len())),
            );
        }
        Bad(line, error) => {
            let found = command(rt.alloc(), session, line, SEVEN, "", "")?;
            same(
                rt,
                (name, *line, found),
                (name, *line, (Err(*error), true, 0)),
            );
        }
        Shows(line, first, last) => {
            let (answer, fits, _) = command(rt.alloc(), session, line, SEVEN, first, last)?;
            same(rt, (name, *line, answer, fits), (name, *line, Ok(0), true));
        }
        Displays(display, first, last) => {
            let text = display_of(rt, session, display)?;
            let fits = (text.starts_with(first), text.ends_with(last));
            same(rt, (name, *first, fits), (name, *first, (true, true)));
        }
        Register(r, word) => {
            let found = register_of(rt, session, *r);
            same(rt, (name, *r, found), (name, *r, *word));
        }
    }
    Ok(())
}

/// A general register of processor 0.
fn register_of(rt: &impl Abort, session: &Session, r: u8) -> u32 {
    assert!(rt; session.machine().processors() > 0);
    session.machine().reg(0, Reg::new(r % 32))
}

/// The text of a display.
fn display_of(
    rt: &(impl Abort + AllocGlobal),
    session: &Session,
    display: &Display,
) -> Result<String, Fail> {
    assert!(rt; session.machine().processors() > 0);
    Ok(match display {
        Display::Regs => session.show_regs(0)?,
        Display::Cop0 => session.show_cop0(0)?,
        Display::Tlb => session.show_tlb(0)?,
        Display::Mem(at, n) => words_of(rt, session, *at, *n)?,
        Display::Code(at, n) => code_of(rt, session, *at, *n)?,
        Display::Log(n) => session.show_log(*n)?,
    })
}

/// The text of `n` words of memory.
fn words_of(rt: &impl Abort, session: &Session, at: u32, n: u32) -> Result<String, Fail> {
    let size = session.machine().memory().len() as u64;
    assert!(rt; at % 4 == 0);
    assert!(rt; u64::from(at) + 4 * u64::from(n) <= size);
    Ok(session.show_mem(at, n)?)
}

/// The text of `n` instructions.
fn code_of(rt: &impl Abort, session: &Session, at: u32, n: u32) -> Result<String, Fail> {
    assert!(rt; at % 4 == 0);
    assert!(rt; n <= 1024);
    session.machine().replay();
    assert!(rt; is_in_ram(session.machine().conf().ram, at, 4 * n));
    Ok(session.show_code(at, n)?)
}

#[test]
fn scenes(rt: HostRuntime) -> Result<(), Fail> {
    for scene in &SCENES {
        let mut session = session(rt.alloc(), scene.processors, scene.entry, scene.words)?;
        for done in scene.acts {
            check_act(&rt, scene.name, &mut session, done)?;
        }
    }
    Ok(())
}

#[test]
fn code_and_watch(rt: HostRuntime) -> Result<(), Fail> {
    let Ok(file) = sample_image(rt.alloc()) else {
        same(&rt, "no sample", "");
        return Ok(());
    };
    let session = session_of(rt.alloc(), file, 1_048_576, 2, 100)?;
    let text = code_of(&rt, &session, 0x8000_0248, 1)?;
    same(
        &rt,
        text.as_str(),
        "80000248 11e0fffe beq $15, $0, 0x80000244\n",
    );
    Ok(())
}

/// A log that keeps three entries shows no others.
#[test]
fn kept_entries(rt: HostRuntime) -> Result<(), Fail> {
    let file = file_from(rt.alloc(), ENTRY, ENTRY, LOOP)?;
    let mut session = session_of(rt.alloc(), file, 4_096, 1, 3)?;
    for done in &[
        Go(
            &[Key(1), Step(0), Key(2), Step(0), Key(3)],
            StopReason::End(5),
        ),
        Line("l 2", SEVEN, 0, "s 0 ran\nk 03 taken\n"),
        Line("l 3", SEVEN, 0, "k 02 taken\ns 0 ran\nk 03 taken\n"),
        Line("l 4", SEVEN, 0, "k 02 taken\ns 0 ran\nk 03 taken\n"),
    ] {
        check_act(&rt, "three entries", &mut session, done)?;
    }
    Ok(())
}

#[test]
fn displays_one_word(rt: HostRuntime) -> Result<(), Fail> {
    let session = session(rt.alloc(), 1, ENTRY, POWER_OFF)?;
    let text = words_of(&rt, &session, 0x200, 1)?;
    same(&rt, text.as_str(), "00000200 3c08bfff\n");
    Ok(())
}

#[test]
fn command_errors(rt: HostRuntime) -> Result<(), Fail> {
    let mut session = session(rt.alloc(), 2, ENTRY, LOOP)?;
    for (line, error) in &FAULTS {
        let mut text = String::from_str(rt.alloc(), "before\n")?;
        let found = session.command(line, SEVEN, &mut text);
        same(&rt, (*line, found), (*line, Err(*error)));
        same(&rt, text.as_str(), "before\n");
    }
    same(&rt, session.machine().log_len(), 0);
    Ok(())
}

#[test]
fn breakpoints_are_64_at_most(rt: HostRuntime) -> Result<(), Fail> {
    let mut session = session(rt.alloc(), 2, ENTRY, LOOP)?;
    for i in 0..64u32 {
        same(&rt, session.breakpoint(1, i), Ok(()));
    }
    for done in &[
        Set(1, 63, Ok(())),
        Set(1, 64, Err(BreakError::TooMany)),
        Set(2, 64, Err(BreakError::BadProcessor)),
        Bad("b 1 80000200", CommandError::TooMany),
        Bad("b 2 80000200", CommandError::BadProcessor),
        Line("b 1 0000003f", &[], 0, "break 1 0000003f\n"),
        Delete(1, 5, true),
        Set(1, 64, Ok(())),
        Delete(1, 5, false),
        Delete(9, 64, false),
    ] {
        check_act(&rt, "sixty-four", &mut session, done)?;
    }
    same(&rt, CommandError::TooMany.name(), "TooMany");
    Ok(())
}
