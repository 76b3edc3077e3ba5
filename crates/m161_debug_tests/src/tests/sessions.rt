//! Sessions, and what their commands print.

use super::same;
use m161::{Console, Machine, Tlb};
use m161_debug::CommandError;
use m161_machine::Event::{Done, Key, Step};
use m161_machine::{Conf, Event, LinkUnit};
use m161_test_support::files::file_from;
use m161_test_support::kernel::{SCHEDULE, kernel_file};
use m161_test_support::outcomes::ENTRY;
use std::alloc::{AllocError, AllocGlobal, Global};
use std::process::Abort;
use std::test::Fail;

pub(crate) type Session = m161_debug::Session<Tlb, Console>;

/// A line, and what the session does with it.
pub(crate) enum Act {
    /// It uses up so many of the events that are left, and prints this.
    Does(&'static str, usize, &'static str),
    /// It isn't done, and prints nothing.
    Fails(&'static str, CommandError),
}

/// A session of a program of a few words, on 4,096 bytes, and what is done to it.
pub(crate) struct Scene {
    /// The words from 80000200 on.
    pub words: &'static [u32],
    pub processors: u32,
    /// The events that are left at the beginning.
    pub events: &'static [Event],
    pub acts: &'static [Act],
    /// How many events are made at the end.
    pub made: u64,
}

/// Goes round: `addiu $8, $8, 1`, `beq $0, $0, 0x80000200`, `nop`.
pub(crate) const LOOP: &[u32] = &[0x2508_0001, 0x1000_fffe, 0x0000_0000];

/// Switches the machine off: `lui $8, 0xbfff`, `sw $0, 32264($8)`.
pub(crate) const POWER_OFF: &[u32] = &[0x3c08_bfff, 0xad00_7e08];

/// Sends bytes of zero: `lui $8, 0xbfe0`, `sw $8, 0($8)`, `beq $0, $0, 0x80000204`, `nop`.
pub(crate) const SEND: &[u32] = &[0x3c08_bfe0, 0xad08_0000, 0x1000_fffe, 0x0000_0000];

/// A byte is typed, and a byte is sent and another one typed, among Steps of `SEND`.
pub(crate) const INPUTS: &[Event] = &[
    Key(0x41),
    Step(0),
    Step(0),
    Done,
    Key(0x42),
    Step(0),
    Step(0),
    Step(0),
];

/// A session of a program of a few words, on 4,096 bytes.
#[inline(never)]
pub(crate) fn session(
    alloc: Global,
    words: &[u32],
    processors: u32,
    log: u32,
) -> Result<Session, Fail> {
    let file = file_from(alloc, ENTRY, ENTRY, words)?;
    session_of(alloc, file.as_slice(), 4_096, processors, log, false)
}

/// The same on a strict machine of one processor.
#[inline(never)]
pub(crate) fn strict_session(alloc: Global, words: &[u32]) -> Result<Session, Fail> {
    let file = file_from(alloc, ENTRY, ENTRY, words)?;
    session_of(alloc, file.as_slice(), 4_096, 1, 100, true)
}

/// A session of the kernel that moves a page.
#[inline(never)]
pub(crate) fn kernel_session(alloc: Global) -> Result<Session, Fail> {
    let file = kernel_file(alloc)?;
    session_of(alloc, file.as_slice(), 1_048_576, 2, 1_000, false)
}

#[inline(never)]
fn session_of(
    alloc: Global,
    file: &[u8],
    ram: u32,
    processors: u32,
    log: u32,
    strict: bool,
) -> Result<Session, Fail> {
    let conf = Conf {
        ram,
        processors,
        log,
        link: LinkUnit::Word,
        strict,
    };
    Ok(Session::new(Machine::boot(alloc, file, conf)?))
}

/// The schedule of the kernel that moves a page.
pub(crate) fn kernel_events(alloc: Global) -> Result<Vec<Event>, AllocError> {
    let mut events = Vec::new(alloc);
    for (event, times, _) in &SCHEDULE {
        for _time in 0..*times {
            events.push(*event)?;
        }
    }
    Ok(events)
}

/// What is left of events from a place on.
pub(crate) fn left_of(events: &[Event], place: usize) -> &[Event] {
    events.get(place..).unwrap_or(&[])
}

/// Does lines, each over the events that those before it have left, and fails the test where one
/// does something else.
pub(crate) fn check(
    rt: &(impl Abort + AllocGlobal),
    session: &mut Session,
    events: &[Event],
    acts: &[Act],
) -> Result<(), Fail> {
    let mut place = 0usize;
    for act in acts {
        let used = check_act(rt, session, left_of(events, place), act)?;
        place = place.saturating_add(used);
    }
    Ok(())
}

/// Does a line behind a text that was there before. Returns how many events it uses up.
fn check_act(
    rt: &(impl Abort + AllocGlobal),
    session: &mut Session,
    left: &[Event],
    act: &Act,
) -> Result<usize, Fail> {
    match act {
        Act::Does(line, used, printed) => {
            check_line(rt, session, line, left, Ok(*used), printed)?;
            Ok(*used)
        }
        Act::Fails(line, error) => {
            check_line(rt, session, line, left, Err(*error), "")?;
            Ok(0)
        }
    }
}

/// Does a line behind a text that was there before: what it answers, and what it appends.
fn check_line(
    rt: &(impl Abort + AllocGlobal),
    session: &mut Session,
    line: &str,
    left: &[Event],
    answer: Result<usize, CommandError>,
    printed: &str,
) -> Result<(), Fail> {
    let mut text = String::from_str(rt.alloc(), "before\n")?;
    let found = session.command(line, left, &mut text);
    same(rt, (line, found), (line, answer));
    let shown = text.strip_prefix("before\n");
    same(rt, (line, shown), (line, Some(printed)));
    Ok(())
}

/// Sessions of programs of a few words.
pub(crate) fn check_scenes(rt: &(impl Abort + AllocGlobal), scenes: &[Scene]) -> Result<(), Fail> {
    for scene in scenes {
        check_scene(rt, scene)?;
    }
    Ok(())
}

fn check_scene(rt: &(impl Abort + AllocGlobal), scene: &Scene) -> Result<(), Fail> {
    let mut session = session(rt.alloc(), scene.words, scene.processors, 100)?;
    check(rt, &mut session, scene.events, scene.acts)?;
    same(rt, session.machine().made(), scene.made);
    Ok(())
}

/// A session of the kernel that moves a page, over its schedule; so many events are made at the
/// end.
pub(crate) fn check_kernel(
    rt: &(impl Abort + AllocGlobal),
    acts: &[Act],
    made: u64,
) -> Result<(), Fail> {
    let mut session = kernel_session(rt.alloc())?;
    let events = kernel_events(rt.alloc())?;
    check(rt, &mut session, events.as_slice(), acts)?;
    same(rt, session.machine().made(), made);
    Ok(())
}
